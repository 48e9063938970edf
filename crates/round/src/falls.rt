//! What a pass keeps of its falls.

/// What the record of a pass has of its falls.
#[derive(Clone, Copy)]
pub enum Falls {
    /// All of them, each with the wishes that it names.
    Kept,
    /// None: nobody whom they name is listed, and no memory is taken for them.
    LeftOut,
}
