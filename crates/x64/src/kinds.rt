// The kinds of operations, by the numbers that the words of a body have (docs/BOOK.md), for what reads bodies and what makes them. No enum: a word
// can hold any other number, and what is read of it is an Op.
pub const PUSH_NONVOLATILE: u32 = 1;

pub const ALLOC: u32 = 2;

pub const SAVE_RSP: u32 = 3;

pub const SAVE_FP: u32 = 4;

pub const SET_FP_REGISTER: u32 = 5;

pub const PUSH_MACHINE_FRAME: u32 = 6;

pub const OTHER: u32 = 7;

pub const UNDECODABLE: u32 = 8;
