// The tags of fields (document 01, "The sheet"). They are numbers and no enum: a field may hold any other byte as its tag, each
// question is answered for such a field, too, and the definitions compare numbers. An enum would need a variant for every
// other byte, and a law that this variant holds none of the tags.

// No tag: what stands in front of the first field.
pub const NO_TAG: u8 = 0;

// Opens an element; the field is its name.
pub const OPEN: u8 = 1;

// The name of an attribute.
pub const NAME: u8 = 2;

// The value of an attribute.
pub const VALUE: u8 = 3;

pub const TEXT: u8 = 4;

pub const COMMENT: u8 = 5;

// Closes an element.
pub const CLOSE: u8 = 6;

// A name of a skip list.
pub const SKIP: u8 = 7;
