use pj_base::KindTag;

/// What one mention names. `place` is the mention's byte offset in the file, `dependency` the number of an image, which
/// is 0 for Base, i for the i-th dependency and one more than the last for the image itself, and `ordinal` the place
/// among what that image has of the kind, from 0.
#[derive(Clone, Copy, PartialEq, Eq)]
pub struct Entry {
    pub place: u32,
    pub kind: KindTag,
    pub dependency: u32,
    pub ordinal: u32,
}
