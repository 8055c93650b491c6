// One line taken from the front of a block, and all of them in turn.
ghost use Rattle.std.specs.Prelude.{◌≡◌, true, length};
ghost use Rattle.std.specs.Iterator.{YieldsFirstBy, item_count};
ghost use Rattle.std.specs.Option.{option_map};
ghost use Rattle.block.specs.Lines.{line, lawful_line, line_text, taken_line, lines_of};

use carrier::names::is_name;
use text::check::is_lawful;
use text::split::split_once;
use text::take::take_char;

// The bytes of a line besides its name and value: colon, space, CR, LF.
pub(crate) const MARKS: usize = 4;

// A line as parts of the block, and what stands after it.
#[derive(Clone, Copy)]
pub struct TakenLine<'a> {
    pub name: &'a [u8],
    pub value: &'a [u8],
    pub rest: &'a [u8],
    ghost is_lawful: { lawful_line (line name.now value.now) ≡ true },
}

impl TakenLine<'_> {
    // How many bytes the line has.
    pub(crate) fn len(&self) -> usize
        ensures { result ≡ length (line_text (line self.now.name.now self.now.value.now)) }
    {
        self.name.len() + self.value.len() + MARKS
    }
}

// The lawful line that the text begins with, if there is one.
pub fn take_line(s: &[u8]) -> Option<TakenLine<'_>>
    ensures { option_map (λ t. (line t.name.now t.value.now, t.rest.now)) result ≡ taken_line s.now }
{
    let (name, s) = split_once(s, b':')?;
    if !is_name(name) {
        return None;
    }
    let s = take_char(s, b' ')?;
    let (value, s) = split_once(s, b'\r')?;
    if !is_lawful(value) {
        return None;
    }
    let rest = take_char(s, b'\n')?;
    Some(TakenLine { name, value, rest })
}

// The lines that the text begins with, one after the other.
#[derive(Clone, Copy)]
pub(crate) struct Lines<'a>(pub(crate) &'a [u8]);

impl<'a> Iterator for Lines<'a> {
    type Item = TakenLine<'a>;

    ghost next_gives = { YieldsFirstBy (λ t. line t.name.now t.value.now) (λ s. lines_of s.0.now) };

    ghost remaining = { item_count (λ s. lines_of s.0.now) };

    fn next(&mut self) -> Option<TakenLine<'a>> {
        let line = take_line(self.0)?;
        self.0 = line.rest;
        Some(line)
    }
}
