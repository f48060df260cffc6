// An input of the listing: where its parts start, and the refusal before its call.
#![tactic(auto)]

ghost use Rattle.std.specs.Prelude.{◌≡◌};
ghost use Rattle.answers.specs.Answer.{number_of};
ghost use Rattle.listing_input.specs.Input.{refusal_of};
ghost use Rattle.listing_input.specs.Layouts.{HeadIn, layout_of};

use answers::{Answer, Refusal};

// The places of an input where the targets and the elements start.
#[derive(Clone, Copy)]
pub struct Layout {
    pub targets: usize,
    pub elements: usize,
}

// Where the parts of an input start whose kinds are listed.
pub fn layout_of(input: &[u8]) -> Layout
    requires { HeadIn input.now }
    ensures { result ≡ layout_of input.now }
{
    let sw = kinds::row_of(input[0]).bytes;
    let dw = kinds::row_of(input[1]).bytes;
    let entries = bytes_le::read_le(input, 4, 2) as usize;
    let targets = 6 + entries * sw;
    Layout {
        targets,
        elements: targets + entries * dw,
    }
}

// Whether an input comes to its call, or the refusal before it.
pub fn refusal(input: &[u8]) -> Answer
    ensures { number_of result ≡ refusal_of input.now }
{
    if input.len() < 6 {
        return Err(Refusal::UnknownCode);
    }
    if !codes::codes_listed(input[0], input[1], input[2], input[3]) {
        return Err(Refusal::UnknownCode);
    }
    if codes::wrap_barred(input[1], input[3]) {
        return Err(Refusal::BarredWrap);
    }
    let map_end = layout_of(input).elements;
    if 8192 < map_end {
        return Err(Refusal::BrokenMap);
    }
    if input.len() < map_end {
        return Err(Refusal::BrokenMap);
    }
    if 8192 < input.len() {
        return Err(Refusal::BrokenElement);
    }
    Ok(())
}
