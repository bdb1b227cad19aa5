// The words that PostgreSQL's layout fixes, by their source's names; other code says `SignWord`.
pub const PG_POS: u16 = 0x0000;

pub const PG_NEG: u16 = 0x4000;

pub const PG_NAN: u16 = 0xC000;

pub const PG_PINF: u16 = 0xD000;

pub const PG_NINF: u16 = 0xF000;

// The greatest precision in force.
pub const PG_MAX_PRECISION: usize = 16_383;
