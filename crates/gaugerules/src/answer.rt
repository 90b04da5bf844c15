// What a call on a gauge answers. A refused byte and a refused supply leave the gauge as it was, so
// they answer the refusal alone; a read answers how many registers it gave, or its refusal.
use crate::state::Gauge;
use flashrules::error::Error;

// After an accepted byte of a write: how many bytes of the image it changed, and the gauge.
#[derive(Clone, Copy)]
pub struct ByteWritten {
    pub changed: usize,
    pub gauge: Gauge,
}

// After a write: why it ended, if a byte was refused, how many bytes were accepted (document 01:
// taken), how many of the image they changed, and the gauge.
#[derive(Clone, Copy)]
pub struct Written {
    pub error: Option<Error>,
    pub accepted: usize,
    pub changed: usize,
    pub gauge: Gauge,
}
