//! The line of the reply `memory`, which takes no memory.
ghost use Rattle.std.specs.Prelude.{◌≡◌, ◌≤◌, ◌++◌, IfSome, codes, decimal};
ghost use Rattle.plain_model.specs.Lines.{reply_lines};

use plain_model::replies::Reply;

/// The line of the reply `memory` with a session's number in front.
fn tagged_memory_line(session: u32) -> &'static [u8]
    requires { (1 ≤ session) × (session ≤ 16) }
    ensures { result.now ≡ decimal session ++ codes " memory\n" }
{
    match session {
        1 => b"1 memory\n",
        2 => b"2 memory\n",
        3 => b"3 memory\n",
        4 => b"4 memory\n",
        5 => b"5 memory\n",
        6 => b"6 memory\n",
        7 => b"7 memory\n",
        8 => b"8 memory\n",
        9 => b"9 memory\n",
        10 => b"10 memory\n",
        11 => b"11 memory\n",
        12 => b"12 memory\n",
        13 => b"13 memory\n",
        14 => b"14 memory\n",
        15 => b"15 memory\n",
        16 => b"16 memory\n",
        _ => unreachable!(),
    }
}

/// The line of the reply `memory`, with a session's number in front where there is one. Takes no memory.
#[tactic(auto, unfolding(plain_model::specs::Lines::lines_of))]
pub fn memory_line(tag: Option<u32>) -> &'static [u8]
    requires { IfSome tag (λ session. (1 ≤ session) × (session ≤ 16)) }
    ensures { result.now ≡ reply_lines tag Reply.Memory }
{
    match tag {
        None => b"memory\n",
        Some(session) => tagged_memory_line(session),
    }
}
