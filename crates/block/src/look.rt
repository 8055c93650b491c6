// Look-ups in a block, line by line.
ghost use Rattle.std.specs.Prelude.{◌≡◌, not, length, take};
ghost use Rattle.std.specs.Option.{option_map};
ghost use Rattle.std.specs.List.{slice_get};
ghost use Rattle.carrier.specs.Names.{Lists};
ghost use Rattle.block.specs.Blocks.{shown_in, without, named, names};
ghost use Rattle.block.specs.Lines.{block_text, lines_of};

use crate::line::Lines;

// The value of the first line of the name.
pub(crate) fn find<'a>(block: &'a [u8], name: &[u8]) -> Option<&'a [u8]>
    ensures { option_map (λ x. x.now) result ≡ shown_in (lines_of block.now) name.now }
{
    Lines(block)
        .find(|line| line.name == name)
        .map(|line| line.value)
}

// Whether no line before that place has the name.
fn is_new(block: &[u8], at: usize, name: &[u8]) -> bool
    ensures { result ≡ not (named name.now (take at (lines_of block.now))) }
{
    !Lines(block).take(at).any(|line| line.name == name)
}

// How many names the lines have.
pub(crate) fn name_count(block: &[u8]) -> usize
    ensures count { result ≡ length (names (lines_of block.now)) }
    ensures lists { Lists (names (lines_of block.now)) (shown_in (lines_of block.now)) }
{
    Lines(block)
        .enumerate()
        .filter(|(at, line)| is_new(block, *at, line.name))
        .count()
}

// The name at that place, in the order of first lines. The chain begins as that of
// `name_count`: its type holds a closure, so no function can answer it.
pub(crate) fn name_at(block: &[u8], at: usize) -> Option<&[u8]>
    ensures { option_map (λ x. x.now) result ≡ slice_get (names (lines_of block.now)) at }
{
    Lines(block)
        .enumerate()
        .filter(|(at, line)| is_new(block, *at, line.name))
        .nth(at)
        .map(|(_, line)| line.name)
}

// How many bytes the lines have.
fn lines_len(text: &[u8]) -> usize
    ensures { result ≡ length (block_text (lines_of text.now)) }
{
    Lines(text).map(|line| line.len()).sum()
}

// How many bytes the lines of other names have.
pub(crate) fn others_len(text: &[u8], name: &[u8]) -> usize
    ensures { result ≡ length (block_text (without name.now (lines_of text.now))) }
{
    Lines(text)
        .filter(|line| line.name != name)
        .map(|line| line.len())
        .sum()
}

// The front of the text that its lines make up.
pub(crate) fn whole_lines(text: &[u8]) -> &[u8]
    ensures { result.now ≡ block_text (lines_of text.now) }
{
    &text[..lines_len(text)]
}
