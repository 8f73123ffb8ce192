//! Laws of the statements that read and write a bit-field.

ghost use Rattle.ep_bitfield.specs.Laws.{ReadingsFit, WritingsFit};

/// States that the statements are well formed, and does nothing.
pub fn access_laws()
    ensures readings { ReadingsFit }
    ensures writings { WritingsFit }
{}
