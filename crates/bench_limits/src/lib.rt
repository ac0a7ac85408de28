// The bench's limits, and the layout of the buffers that it is lent (document 01, "The bench"): numbers only, no function.
#![tactic(auto)]

// "n at most 4, capacity at most 4, block size at most 8, coordinators 0 to 3"
pub const BRICKS: usize = 4;

pub const CAPACITY: usize = 4;

pub const SIZE: usize = 8;

pub const COORDINATORS: usize = 4;

// "The bench keeps to one stripe": so many, and the number of that one.
pub const BENCH_STRIPES: usize = 1;

pub const BENCH_STRIPE: usize = 0;

// "message 127"
pub const LAST_MESSAGE: usize = 127;

// A brick that is up, and one that is down.
pub const UP: u8 = 1;

pub const DOWN: u8 = 0;

// Room for the blocks of all bricks, or for a stripe.
pub const STRIPE_ROOM: usize = BRICKS * SIZE;

// What a coordinator keeps: the reply blocks, then the stripe.
pub const KEPT_ROOM: usize = 2 * STRIPE_ROOM;

pub const KEPT_LENGTH: usize = COORDINATORS * KEPT_ROOM;

// A brick's row of images, which is one image: a head and its entries, a block each.
pub const IMAGE_ROOM: usize = (CAPACITY + 1) * image_block::BLOCK_BYTES;

pub const IMAGES_LENGTH: usize = BRICKS * IMAGE_ROOM;

// A sent message or reply: a row of numbers and a row of bytes.
pub const ROW_NUMBERS: usize = 16;

pub const ROW_BYTES: usize = FLAGS + 2 * SIZE;

pub const NUMBERS_LENGTH: usize = LAST_MESSAGE * ROW_NUMBERS;

pub const BYTES_LENGTH: usize = LAST_MESSAGE * ROW_BYTES;

// The places in a row of numbers; those behind them are free. What the tag says.
pub const TAG_PLACE: usize = 0;

pub const BRICK_PLACE: usize = 1;

pub const KIND_PLACE: usize = 2;

pub const TIME_PLACE: usize = 3;

pub const ROUND_PLACE: usize = 4;

pub const MAX_PLACE: usize = 5;

pub const FOUND_PLACE: usize = 5;

pub const YES_PLACE: usize = 6;

pub const HELD_PLACE: usize = 7;

pub const STRIPE_PLACE: usize = 8;

pub const OLD_TIME_PLACE: usize = 9;

pub const DATA_BLOCK_PLACE: usize = 10;

pub const COMPARISON_PLACE: usize = 11;

pub const MESSAGE_TAG: u64 = 0;

pub const REPLY_TAG: u64 = 1;

// A row of bytes: the target flags, the block, and the old block of a message.
pub const FLAGS: usize = settings::MAX_BRICKS;

pub const BLOCK_PLACE: usize = FLAGS;

pub const OLD_BLOCK_PLACE: usize = BLOCK_PLACE + SIZE;

// Room for one printed line, and for all that one line of the input prints.
pub const LINE_ROOM: usize = 128;

pub const TEXT_LENGTH: usize = 65536;
