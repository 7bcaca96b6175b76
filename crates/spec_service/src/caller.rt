// A caller's record. It lies in memory that the host lends, so any content is possible.
use spec_file::STEPS;

// A mark: its name is the first `length` bytes of `name`, its place 1 at the beginning or 2 behind the first `steps` bytes of `schedule`.
// It is free where the length is not 1 to 8, or the place is no such place.
#[repr(C)]
#[derive(Clone, Copy)]
pub struct Mark {
    pub name: [u8; 8],
    pub length: u8,
    pub place: u8,
    pub steps: u8,
    pub schedule: [u8; STEPS],
}

// The program file is the first `length` bytes of `file`. The place is 1 at the beginning, 2 behind the first `steps` bytes of `schedule`,
// 3 at the end, and anything else where the record is closed. It asks where `asking` is 1. The last schedule handed to it since it opened
// is the first `size` bytes of `newest`, where `handed` is 1. `count` is the number of schedules handed to it since then, modulo 2^64.
// `padding` are the bytes behind the marks up to a multiple of 8: they mean nothing, and are zeros where the record opens or closes.
#[repr(C)]
#[derive(Clone, Copy)]
pub struct Caller {
    pub file: [u8; 4096],
    pub length: usize,
    pub count: u64,
    pub place: u8,
    pub asking: u8,
    pub steps: u8,
    pub schedule: [u8; STEPS],
    pub handed: u8,
    pub size: u8,
    pub newest: [u8; STEPS],
    pub marks: [Mark; 8],
    pub padding: [u8; 3],
}
