//! The kinds of faults, as c/memplan.h names them.

pub const NO_MEMORY: u32 = 1;

pub const ROOM: u32 = 2;

pub const CLAIM_ROOM: u32 = 3;

pub const WORKERS: u32 = 4;

pub const NO_NODE: u32 = 10;

pub const MANY_TASKS: u32 = 11;

pub const PARENT: u32 = 12;

pub const TIME: u32 = 13;

pub const SIZE: u32 = 14;

pub const LONG_TIME: u32 = 15;

pub const TOTAL: u32 = 16;

pub const CYCLE: u32 = 17;

pub const SHARE: u32 = 18;

pub const UNKNOWN: u32 = 20;

pub const REPEATED: u32 = 21;

pub const TOO_EARLY: u32 = 22;

pub const MISSING: u32 = 23;

pub const BOUND_BELOW: u32 = 30;

pub const WORKING_SET: u32 = 31;

pub const LONG_ORDER: u32 = 40;

pub const GREAT_PEAK: u32 = 41;

pub const MANY_CLAIMS: u32 = 42;

pub const CLAIM: u32 = 43;

pub const OTHER_PEAK: u32 = 44;

pub const NO_ROOT_CLAIM: u32 = 45;

pub const WRONG_CLAIM: u32 = 46;

pub const MANY_ITEMS: u32 = 50;

pub const ENDS: u32 = 51;

pub const ITEM_SIZE: u32 = 52;

pub const MANY_USES: u32 = 53;

pub const COUNTS: u32 = 54;

pub const READERS: u32 = 55;

pub const APART: u32 = 56;

pub const RISING: u32 = 57;

pub const BASE: u32 = 60;

pub const NO_COLUMN: u32 = 61;

pub const MANY_COLUMNS: u32 = 62;

pub const MANY_ENTRIES: u32 = 63;

pub const START: u32 = 64;

pub const ENTRIES: u32 = 65;

pub const ROW: u32 = 66;

pub const PLACES: u32 = 67;

pub const NO_SUCH_COLUMN: u32 = 68;

pub const COLUMN_REPEATED: u32 = 69;

pub const DEGREE: u32 = 70;

pub const SHAPE: u32 = 71;

pub const NODE_ROOM: u32 = 72;

pub const COLUMN_FRONTS: u32 = 73;

pub const NO_SUCH_FRONT: u32 = 74;
