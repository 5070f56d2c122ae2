// Sizes that always suffice.

// The bytes of an order list: one that has more is refused.
pub const MOST_FILE_BYTES: usize = 16384;

// The codes of a list.
pub const MOST_CODES: usize = 128;

// Their faces, two of each code.
pub const MOST_FACES: usize = 256;

// The bands of a code.
pub const MOST_CODE_BANDS: usize = 64;

// The bytes of a name.
pub const MOST_NAME_SIZE: usize = 24;

// The bands of all codes of a list together, and of a computed ribbon.
pub const MOST_BANDS: usize = 8192;

// The bytes of all names of a list together.
pub const MOST_NAME_BYTES: usize = 3072;

// The bands of a supplied ribbon: one that has more is refused.
pub const MOST_SUPPLIED_BANDS: usize = 16384;

// The bytes of a sheet.
pub const MOST_SHEET_BYTES: usize = 17181;
