// The items of a dd value.
ghost use Rattle.std.specs.Prelude.{◌≡◌};
ghost use Rattle.std.specs.Iterator.{YieldsFirstBy, item_count};
ghost use Rattle.std.specs.Option.{option_map};
ghost use Rattle.text.specs.Cursors.{left};
ghost use Rattle.tracestate.specs.Items.{has_key, hear, heard, item_of, items, items_of, key_in, kinded, says, standing_tag, tags, tags_left, told};
ghost use Rattle.tracestate.specs.Members.{said};

use crate::member::Member;
use text::pieces::Pieces;
use text::split::split_once;
use text::take::strip_prefix;
use text::trim::trim;

// What the key of a tag begins with.
const TAG_PREFIX: &[u8] = b"t.";

// An item by its key, with its parts of the text.
#[derive(Clone, Copy)]
pub enum DdItem<'a> {
    Priority { key: &'a [u8], value: &'a [u8] },
    Origin { key: &'a [u8], value: &'a [u8] },
    LastParent { key: &'a [u8], value: &'a [u8] },
    Tag { key: &'a [u8], value: &'a [u8] },
    Other { key: &'a [u8], value: &'a [u8] },
}

// What a dd value says besides its tags.
#[derive(Clone, Copy, Default)]
pub struct Dd<'a> {
    pub priority: Option<&'a [u8]>,
    pub origin: Option<&'a [u8]>,
    pub last_parent: Option<&'a [u8]>,
}

// The tags of a dd value that are still to come.
#[derive(Clone, Copy)]
pub struct DdTags<'a> {
    pieces: Pieces<'a>,
}

#[tactic(auto, using(crate::proofs::Tagging::begins))]
fn item_of<'a>(key: &'a [u8], value: &'a [u8]) -> DdItem<'a>
    ensures { told result ≡ kinded (record { key = key.entry.now; value = value.now }) }
{
    match key {
        b"s" => DdItem::Priority { key, value },
        b"o" => DdItem::Origin { key, value },
        b"p" => DdItem::LastParent { key, value },
        _ if key.starts_with(TAG_PREFIX) => DdItem::Tag { key, value },
        _ => DdItem::Other { key, value },
    }
}

// The item that a piece writes; none if it has no colon.
pub fn dd_item(piece: &[u8]) -> Option<DdItem<'_>>
    ensures { option_map told result ≡ option_map kinded (item_of piece.now) }
{
    let (key, value) = split_once(piece, b':')?;
    Some(item_of(key, value))
}

// What is heard once an item more is read: of two of one kind the later counts.
fn hear_item<'a>(dd: Dd<'a>, item: DdItem<'a>) -> Dd<'a>
    ensures { says result ≡ hear (says dd.entry) (told item.entry) }
{
    match item {
        DdItem::Priority { value, .. } => Dd {
            priority: Some(value),
            ..dd
        },
        DdItem::Origin { value, .. } => Dd {
            origin: Some(value),
            ..dd
        },
        DdItem::LastParent { value, .. } => Dd {
            last_parent: Some(value),
            ..dd
        },
        DdItem::Tag { .. } | DdItem::Other { .. } => dd,
    }
}

// What a dd value says besides its tags.
pub fn read_dd(value: &[u8]) -> Dd<'_>
    ensures { says result ≡ heard (items value.now) }
{
    Pieces::new(trim(value), b';')
        .filter_map(dd_item)
        .fold(Dd::default(), hear_item)
}

fn has_key(piece: &[u8], key: &[u8]) -> bool
    ensures { result ≡ key_in key.now (item_of piece.now) }
{
    split_once(piece, b':').is_some_and(|(own, _)| own == key)
}

// Whether an item of that key is still to come.
fn is_replaced(key: &[u8], mut later: Pieces) -> bool
    ensures { result ≡ has_key key.now (items_of (left later.entry)) }
{
    later.any(|piece| has_key(piece, key))
}

// The tag that a piece is, with what follows `t.` as its key, unless a later item replaces it.
fn standing_tag<'a>(piece: &'a [u8], later: Pieces<'a>) -> Option<Member<'a>>
    ensures { option_map said result ≡ standing_tag (item_of piece.now) (items_of (left later.entry)) }
{
    let (key, value) = split_once(piece, b':')?;
    let rest = strip_prefix(key, TAG_PREFIX)?;
    (!is_replaced(key, later)).then_some(Member { key: rest, value })
}

impl<'a> DdTags<'a> {
    #[tactic(auto, unfolding(crate::specs::Items::items))]
    pub fn new(value: &'a [u8]) -> DdTags<'a>
        ensures { tags_left result ≡ tags (items value.now) }
    {
        DdTags {
            pieces: Pieces::new(trim(value), b';'),
        }
    }
}

impl<'a> Iterator for DdTags<'a> {
    type Item = Member<'a>;

    ghost next_gives = { YieldsFirstBy said tags_left };

    ghost remaining = { item_count tags_left };

    // The next tag; none once all were given.
    fn next(&mut self) -> Option<Member<'a>> {
        // No `for` or chain takes its place: a turn also reads what the cursor has left after it.
        while let Some(piece) = self.pieces.next() {
            if let Some(tag) = standing_tag(piece, self.pieces) {
                return Some(tag);
            }
        }
        None
    }
}
