// How many bytes a state has, what they begin with, and where its position stands, which is last.
pub const STATE_LEN: usize = 96;

pub(crate) const MARK_LEN: usize = 5;

pub(crate) const MARK: [u8; MARK_LEN] = *b"FMS\x00\x01";

pub(crate) const POSITION: usize = 13;
