// Stays: both are C's structs, so a kind and a refusal are numbers here. `integers::kind::Kind` and
// `Value` are what the code goes by.
// A parameter (document 01: a parameter row). Numbers only, so that a host program can hold it and
// any row whatever can be passed; whether one is valid is a test.
#[repr(C)]
#[derive(Clone, Copy)]
pub struct Parameter {
    pub class: u8,
    // Of the value's first byte, in its class.
    pub offset: u16,
    pub kind: u8,
    // The least and the greatest value in range.
    pub min: i64,
    pub max: i64,
}

// What reading a parameter answers: document 01's error number, 0 where there is none. Refused, the
// value is 0 and not in range.
#[repr(C)]
#[derive(Clone, Copy)]
pub struct ParameterValue {
    pub error: u8,
    pub value: i64,
    pub in_range: bool,
}

// A parameter's value as it is read.
#[derive(Clone, Copy, Debug, PartialEq, Eq)]
pub struct Value {
    pub value: i64,
    pub in_range: bool,
}
