// Published orbits: element sets of SGP4-VER.TLE (Debian package python3-sgp4), with WGS84, IAU time and
// the flag off. Beside the elements stand the numbers that sgp4 2.4.0 works out from a set before its
// deep-space part, and the rates that its third_body gives; the last digit of each is needed.
use constants::build::build;
use constants::error::BuildError;
use constants::given::{Dots, Given};
use orbit::model::{SiderealTime, wgs84};
use orbit::propagator::{Constants, Orbit};

// A published orbit, and what is built of it.
#[derive(Clone, Copy)]
pub struct Set {
    orbit_0: Orbit,
    given: Given,
    solar: Dots,
    lunar: Dots,
}

impl Set {
    pub fn build(self) -> Result<Constants, BuildError> {
        build(
            wgs84(),
            SiderealTime::Iau,
            self.orbit_0,
            self.given,
            self.solar,
            self.lunar,
            false,
        )
    }
}

// Molniya 2-14, 08195 of SGP4-VER.TLE: a half-day orbit.
pub const MOLNIYA: Set = Set {
    orbit_0: Orbit {
        inclination: 1.119778813470034,
        right_ascension: 4.87072001413786,
        eccentricity: 0.6877146,
        argument_of_perigee: 4.621022739372039,
        mean_anomaly: 0.3530050585206171,
        mean_motion: 0.008748547026095402,
    },
    given: Given {
        epoch: 6.4800332770431215,
        p1: 0.43588152571096384,
        a0: 4.165134045157468,
        c1: 1.942530091692445e-13,
        c4: 1.4314934566283116e-13,
        k0: -4.604716014154515e-19,
        k1: 2.9137951375386675e-13,
        k14: -7.435468032467617e-8,
        p14: -1.2845968359371714e-6,
        p15: 0.008748086886633089,
    },
    solar: Dots {
        inclination: -2.971026144323486e-9,
        right_ascension: -2.0314318640891258e-8,
        eccentricity: -8.079320142268698e-9,
        argument_of_perigee: -5.889404796765534e-9,
        mean_anomaly: 3.297459272223117e-8,
    },
    lunar: Dots {
        inclination: -6.813082117660011e-9,
        right_ascension: -4.092891621080162e-8,
        eccentricity: -2.0806156070996013e-8,
        argument_of_perigee: -8.265805926612196e-9,
        mean_anomaly: 5.973327463453023e-8,
    },
};

// Italsat 2, 24208: a one-day orbit.
pub const ITALSAT: Set = Set {
    orbit_0: Orbit {
        inclination: 0.06725800805485349,
        right_ascension: 1.396474586434955,
        eccentricity: 0.002664,
        argument_of_perigee: 5.429679160381563,
        mean_anomaly: 0.8429940287132611,
        mean_motion: 0.004397108757196162,
    },
    given: Given {
        epoch: 6.481972942915811,
        p1: 0.997739032685842,
        a0: 6.588827407532474,
        c1: 5.634197424580164e-18,
        c4: 8.790433057446824e-20,
        k0: -3.236252556289199e-24,
        k1: 8.451296136870245e-18,
        k14: 3.2717845071588116e-7,
        p14: -1.6414311870734702e-7,
        p15: 0.00439727213710662,
    },
    solar: Dots {
        inclination: 8.774501514367314e-9,
        right_ascension: 2.393020822290422e-9,
        eccentricity: 2.4525052037555342e-11,
        argument_of_perigee: 1.795353849987024e-8,
        mean_anomaly: -4.5319205191425555e-8,
    },
    lunar: Dots {
        inclination: 2.153674676452934e-8,
        right_ascension: 1.5827446589818684e-8,
        eccentricity: 7.476192191107959e-11,
        argument_of_perigee: 2.543583058807238e-8,
        mean_anomaly: -8.724112944248153e-8,
    },
};

// Navstar 53, 28129: of half a day, but too round to be resonant.
pub const NAVSTAR: Set = Set {
    orbit_0: Orbit {
        inclination: 0.9552152089579925,
        right_ascension: 5.669000452744278,
        eccentricity: 0.0048506,
        argument_of_perigee: 4.647183479530182,
        mean_anomaly: 1.6260586869007931,
        mean_motion: 0.008751201528745393,
    },
    given: Given {
        epoch: 6.477948559507187,
        p1: 0.5774330664585366,
        a0: 4.164291728944936,
        c1: 6.943757765778932e-17,
        c4: 2.1163572526210807e-18,
        k0: -1.150088283570134e-22,
        k1: 1.0415636648668397e-16,
        k14: 2.733227768375977e-7,
        p14: -4.73237452225873e-7,
        p15: 0.00875120164983911,
    },
    solar: Dots {
        inclination: -2.229934650673111e-9,
        right_ascension: -6.687043608081765e-9,
        eccentricity: -3.278590308598965e-11,
        argument_of_perigee: 3.6687302153338255e-10,
        mean_anomaly: -3.820269892733544e-9,
    },
    lunar: Dots {
        inclination: -5.928161109974977e-9,
        right_ascension: -1.2942730246002519e-8,
        eccentricity: -7.789463005629243e-11,
        argument_of_perigee: 8.186118311581352e-9,
        mean_anomaly: -1.8928204683767815e-8,
    },
};
