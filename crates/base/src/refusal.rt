// The refusal numbers of document 01 (docs/RULES.md, 2.2) and, from 42 on, of document 02, one name each. `specs/Refusal.antt` is the same list for
// contracts; `docs/REFUSALS.md` says what each means. 10, 18, 19, 23, 41 and 45 are not used.
pub const MESSAGE_LENGTH: u32 = 1;

pub const NOT_BOOTREQUEST: u32 = 2;

pub const HARDWARE_ADDRESS_LENGTH: u32 = 3;

pub const OPTIONS_MALFORMED: u32 = 4;

pub const OPTION_REPEATED: u32 = 5;

pub const OPTION_OVERLOAD: u32 = 6;

pub const NOT_A_REQUEST: u32 = 7;

pub const NO_IDENTIFIER: u32 = 8;

pub const NO_PROPER_NAME: u32 = 9;

pub const TOO_MANY_RELAYS: u32 = 11;

pub const UNKNOWN_SETTING: u32 = 12;

pub const OUTPUT_SHORT: u32 = 13;

pub const HASH_INPUT_LONG: u32 = 14;

pub const NOT_A_DHCID: u32 = 15;

pub const ADDRESS_LENGTH: u32 = 16;

pub const LISTING_LONG: u32 = 17;

pub const ENTRY_SHAPE: u32 = 20;

pub const ENTRY_OWNER: u32 = 21;

pub const ENTRY_TYPE: u32 = 22;

pub const ENTRY_DATA: u32 = 24;

pub const ROW_SHORT: u32 = 25;

pub const HELD_BY_ANOTHER: u32 = 30;

pub const KEPT_BY_HAND: u32 = 31;

pub const TABLE_FULL: u32 = 32;

pub const NAME_NOT_HELD: u32 = 33;

pub const ADDRESS_DIFFERS: u32 = 34;

pub const RECORD_REPEATED: u32 = 35;

pub const TABLE_NOT_SOUND: u32 = 40;

pub const WRONG_CHECK: u32 = 42;

pub const WRONG_FIELD: u32 = 43;

pub const BLOCK_LENGTH: u32 = 44;

pub const REVERSE_FULL: u32 = 46;

pub const NOT_THE_ANSWER: u32 = 47;

pub const ANOTHER_CODE: u32 = 48;
