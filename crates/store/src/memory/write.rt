// Changes of what a store holds.
ghost use Rattle.std.specs.Prelude.{◌≡◌, ◌+◌, ◌≤◌, ◌&&◌, cond, min, true, [], length, vec_len};
ghost use Rattle.std.specs.Option.{option_map, unwrap_or};
ghost use Rattle.std.specs.Result.{result_and};
ghost use Rattle.text.specs.Texts.{lawful};
ghost use Rattle.store.specs.Contents.{empty, cleared, verdict, put_answer, after_put, after_remove, origin_answer, after_origin, ot_answer, after_ot};
ghost use Rattle.store.specs.Stores.{held};
ghost use Rattle.store.specs.Uses.{has_room, in_use, replaced, room};

use crate::faults::StoreFault;
use crate::in_use::InUse;
use crate::memory::{MAX_BYTES, MAX_TAGS, Span, Store};
use text::check::is_lawful;

// Sets a part of the text at a place, or drops it, and says how long it is then: none if it was dropped, which is no refusal. A
// refusal alters nothing. That the room stays is said of two states, and no invariant can say it.
fn set_part(
    text: &mut InUse<u8>,
    at: usize,
    old: Option<usize>,
    part: Option<&[u8]>,
) -> Result<Option<usize>, StoreFault>
    requires { at + unwrap_or old 0 ≤ length (in_use text.old) }
    ensures answer { let new = option_map (λ x. x.now) part.entry in let bytes = unwrap_or new [] in result ≡ result_and (verdict (lawful bytes) (has_room text.old (unwrap_or old 0) (length bytes))) (Ok (option_map length new)) }
    ensures items { let bytes = unwrap_or (option_map (λ x. x.now) part.entry) [] in in_use text.new ≡ cond (lawful bytes && has_room text.old (unwrap_or old 0) (length bytes)) (replaced (in_use text.old) at (unwrap_or old 0) bytes) (in_use text.old) }
    ensures room { room text.new ≡ room text.old }
{
    let new = part.unwrap_or(b"");
    let old = old.unwrap_or(0);
    if !is_lawful(new) {
        return Err(StoreFault::Unlawful);
    }
    if !text.has_room(old, new.len()) {
        return Err(StoreFault::Full);
    }
    text.replace(at, old, new);
    Ok(part.map(|s| s.len()))
}

impl Store {
    // An empty store in the memory handed in, of which it uses what is within the limits.
    pub fn new(spans: Vec<Span>, text: Vec<u8>) -> Store
        ensures { held result ≡ empty (min (vec_len spans) 256) (min (vec_len text) 65536) }
    {
        Store {
            spans: InUse::new(spans, MAX_TAGS),
            text: InUse::new(text, MAX_BYTES),
            origin: None,
            ot: None,
        }
    }

    // Takes out all tags, the origin and the ot value.
    pub fn clear(&mut self)
        ensures { held self.new ≡ cleared (held self.old) }
    {
        self.spans.clear();
        self.text.clear();
        self.origin = None;
        self.ot = None;
    }

    // Sets a lawful key to a lawful value, in its place of the order.
    fn insert(&mut self, key: &[u8], value: &[u8]) -> Result<(), StoreFault>
        requires key { lawful key.now ≡ true }
        requires value { lawful value.now ≡ true }
        ensures answer { result ≡ put_answer (held self.old) key.now value.now }
        ensures after { held self.new ≡ after_put (held self.old) key.now value.now }
    {
        let place = self.find(key);
        let (tags, bytes) = (place.tags(), place.bytes());
        if !self.spans.has_room(tags, 1) || !self.text.has_room(bytes, key.len() + value.len()) {
            return Err(StoreFault::Full);
        }
        self.text.replace(place.at, bytes, key);
        self.text.replace(place.at + key.len(), 0, value);
        let span = [Span {
            key: key.len(),
            value: value.len(),
        }];
        self.spans.replace(place.index, tags, &span);
        Ok(())
    }

    // Sets the key to the value. A refusal alters nothing.
    pub fn put(&mut self, key: &[u8], value: &[u8]) -> Result<(), StoreFault>
        ensures answer { result ≡ put_answer (held self.old) key.now value.now }
        ensures after { held self.new ≡ after_put (held self.old) key.now value.now }
    {
        if is_lawful(key) && is_lawful(value) {
            self.insert(key, value)
        } else {
            Err(StoreFault::Unlawful)
        }
    }

    // Takes the key out, if it is there. Its bytes are free again.
    pub fn remove(&mut self, key: &[u8])
        ensures { held self.new ≡ after_remove (held self.old) key.now }
    {
        let place = self.find(key);
        self.text.replace(place.at, place.bytes(), b"");
        self.spans.replace(place.index, place.tags(), &[]);
    }

    // Sets the origin, or drops it. A refusal alters nothing, and dropping is never refused.
    pub fn set_origin(&mut self, origin: Option<&[u8]>) -> Result<(), StoreFault>
        ensures answer { result ≡ origin_answer (held self.old) (option_map (λ x. x.now) origin.entry) }
        ensures after { held self.new ≡ after_origin (held self.old) (option_map (λ x. x.now) origin.entry) }
    {
        self.origin = set_part(&mut self.text, 0, self.origin, origin)?;
        Ok(())
    }

    // Gives the ot value, or drops it. A refusal alters nothing, and dropping is never refused.
    pub fn set_ot(&mut self, ot: Option<&[u8]>) -> Result<(), StoreFault>
        ensures answer { result ≡ ot_answer (held self.old) (option_map (λ x. x.now) ot.entry) }
        ensures after { held self.new ≡ after_ot (held self.old) (option_map (λ x. x.now) ot.entry) }
    {
        let at = self.origin.unwrap_or(0);
        self.ot = set_part(&mut self.text, at, self.ot, ot)?;
        Ok(())
    }
}
