/// Why bytes are no image: the first section that is at fault, or want of memory. Section 0 is what stands before the
/// sections, and 13 the identity.
#[derive(Clone, Copy, Debug, PartialEq, Eq)]
pub enum DecodeFault {
    Format { section: u32 },
    NoMemory,
}
