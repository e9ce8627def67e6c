// The fields of line two: one table, which says in which columns each stands. Columns count from 1.
ghost use Rattle.std.specs.Prelude.{◌≡◌, true};
ghost use Rattle.line.specs.Shape.{shaped};

// A field: its first column, its point or, without one, the column behind its last, and its last column.
// The point is no Option: the digits before it end in the same place without it, so that each user would write that column for None.
#[derive(Clone, Copy)]
pub struct Field {
    pub first: usize,
    pub point: usize,
    pub last: usize,
    pub ghost shape: { shaped first point last ≡ true },
}

pub const SATELLITE: Field = Field {
    first: 3,
    point: 8,
    last: 7,
};

pub const INCLINATION: Field = Field {
    first: 9,
    point: 12,
    last: 16,
};

pub const NODE: Field = Field {
    first: 18,
    point: 21,
    last: 25,
};

pub const ECCENTRICITY: Field = Field {
    first: 27,
    point: 34,
    last: 33,
};

pub const PERIGEE: Field = Field {
    first: 35,
    point: 38,
    last: 42,
};

pub const ANOMALY: Field = Field {
    first: 44,
    point: 47,
    last: 51,
};

pub const MEAN_MOTION: Field = Field {
    first: 53,
    point: 55,
    last: 63,
};

pub const REVOLUTION: Field = Field {
    first: 64,
    point: 69,
    last: 68,
};

// The fields, in the order of the line.
pub const FIELDS: [Field; 8] = [
    SATELLITE,
    INCLINATION,
    NODE,
    ECCENTRICITY,
    PERIGEE,
    ANOMALY,
    MEAN_MOTION,
    REVOLUTION,
];

// The eight numbers of a line: degrees by 10^4, eccentricity by 10^7, revolutions a day by 10^8.
#[derive(Clone, Copy, Debug, PartialEq, Eq)]
pub struct Numbers {
    pub satellite: u32,
    pub inclination: u32,
    pub node: u32,
    pub eccentricity: u32,
    pub perigee: u32,
    pub anomaly: u32,
    pub mean_motion: u64,
    pub revolution: u32,
}
