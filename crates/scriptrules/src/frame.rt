// A frame of a script, as it is run.
#[derive(Clone, Copy)]
pub enum Frame<'a> {
    Write { register: u8, bytes: &'a [u8] },
    Read { register: u8, count: u8 },
    Supply { millivolts: u16 },
}
