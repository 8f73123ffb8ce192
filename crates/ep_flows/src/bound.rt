//! The number of a loop's last head.

ghost use Rattle.std.specs.Prelude.{◌≡◌, ◌≤◌, ◌+◌, ◌*◌, ◌^◌, sum_by};
ghost use Rattle.ep_core.specs.declared.program.BlockInfo.{BlockInfo};
ghost use Rattle.ep_core.specs.ProgramView.{program_view};
ghost use Rattle.ep_pass.specs.Turns as rule;

use ep_core::program::{BlockInfo, CoreProgram};

/// The number of the last head of each loop, where numbers widen so often.
pub fn last_head(p: &CoreProgram, height: u32) -> u128
    ensures { result ≡ rule.last_head (program_view p.now) height }
{
    let blocks = p.blocks.len() as u64;
    let rank = cell_rank(blocks, height);
    let bytes = bytes_in(&p.blocks);
    32 * bytes * rank + 1
}

// How often one cell can change.
fn cell_rank(blocks: u64, height: u32) -> u128
    ensures rank { result ≡ rule.cell_rank blocks height }
    ensures bound { result ≤ 2 ^ 97 }
{
    4 + (u128::from(blocks) + 1) * (u128::from(height) + 1)
}

// The bytes of all blocks.
fn bytes_in(blocks: &[BlockInfo]) -> u128
    requires { sum_by (λ (b : BlockInfo). b.size) blocks.now ≤ 65536 }
    ensures { result ≡ sum_by (λ (b : BlockInfo). b.size) blocks.now }
{
    let mut bytes = 0u128;
    for b in blocks {
        bytes += u128::from(b.size);
    }
    bytes
}
