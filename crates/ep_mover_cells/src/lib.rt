//! What the analysis knows of a program that only moves bytes: of each byte its form, which is that of the byte by the
//! text. Definitions, and the law of reads.
#![tactic(auto)]

ghost use Rattle.ep_mover_cells.specs.Laws.{ReadsKnowBytes};

use ep_domain::Num;

/// Does nothing: its contract is that a number whose bytes the text tells is read without a doubt, with the form of
/// these bytes, over every domain.
pub fn mover_reads<N: Num>()
    ensures { ReadsKnowBytes N.ops }
{}
