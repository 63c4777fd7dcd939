//! The layout of an algorithm in the RAM of a board.
ghost use Rattle.std.specs.Prelude.{◌≡◌, ◌≤◌, ◌<◌, ◌+◌, ◌^◌, IfOk};
ghost use Rattle.flm_descriptor.specs.Shown.{shown as algorithm_of};
ghost use Rattle.board_file.specs.Shown.{shown as board_of};
ghost use Rattle.algo_loader.specs.Laws.{IsLaidOut, HasStack};
ghost use Rattle.algo_loader.specs.Places.{placed, round_up};

use board_file::Board;
use flm_descriptor::Algorithm;
use thiserror::Error;

/// The distance of the code from the RAM's first byte, in bytes.
const CODE_FROM: u32 = 32;

/// Addresses in the RAM of a target.
#[derive(Clone, Copy, PartialEq, Eq)]
pub struct Layout {
    /// The return point of calls: the RAM's first byte.
    pub return_at: u32,
    /// The first byte of the code. The data and the zeroed data follow at their places.
    pub code_at: u32,
    /// The value of R9 at a call, modulo 2^32: the address of the data.
    pub static_base: u32,
    /// The first byte of the buffer. The buffer has the bytes of a page, rounded up to a multiple of eight.
    pub buffer_at: u32,
    /// The end of the stack, modulo 2^32.
    pub stack_top: u32,
    /// The number of bytes from the RAM's first byte to the stack's end.
    pub need: u64,
}

/// The RAM is too small.
#[derive(Clone, Copy, Debug, PartialEq, Eq, Error)]
#[error("NoRoom {need} {have}")]
pub struct NoRoom {
    /// The bytes that the algorithm needs.
    pub need: u64,
    /// The bytes that the RAM has.
    pub have: u64,
}

/// `number` rounded up to a multiple of eight.
fn round_up(number: u64) -> u64
    requires { number < 2 ^ 63 }
    ensures value { result ≡ round_up number }
    ensures bound { result ≤ number + 7 }
{
    (number + 7) / 8 * 8
}

/// Makes the layout of an algorithm in the RAM of a board. It is refused exactly if more bytes are needed than the RAM has. The parts
/// follow one another within the RAM, with a buffer for a page and a whole stack. Buffer and stack are aligned.
pub fn place(algorithm: &Algorithm, board: &Board) -> Result<Layout, NoRoom>
    ensures exact { result ≡ placed (algorithm_of algorithm.now) (board_of board.now) }
    ensures parts { IfOk result (λ layout. IsLaidOut (algorithm.now.zero_at + algorithm.now.zero_len) algorithm.now.device.page
        board.now.ram_base board.now.ram_size layout) }
    ensures stack { IfOk result (λ layout. HasStack algorithm.now.device.page board.now.stack board.now.ram_base board.now.ram_size layout) }
{
    let parts = u64::from(CODE_FROM) + u64::from(algorithm.zero_at) + u64::from(algorithm.zero_len);
    let buffer = round_up(parts);
    let need = buffer + round_up(u64::from(algorithm.device.page)) + u64::from(board.stack);
    let have = u64::from(board.ram_size);
    if need > have {
        return Err(NoRoom { need, have });
    }
    let code_at = board.ram_base + CODE_FROM;
    Ok(Layout {
        return_at: board.ram_base,
        code_at,
        static_base: code_at.wrapping_add(algorithm.static_base),
        buffer_at: board.ram_base + buffer as u32,
        stack_top: ((u64::from(board.ram_base) + need) % 0x1_0000_0000) as u32,
        need,
    })
}
