// Bytes of a text replaced in place.
ghost use Rattle.std.specs.Prelude.{◌≡◌, map};
ghost use Rattle.text.specs.Texts.{replaced};

use byte_classes::sets::ByteTest;

// Each byte of the set becomes `by`.
pub fn replace_chars<S: ByteTest>(text: &mut [u8], by: u8)
    ensures { text.new ≡ map (replaced S.ByteTest.holds by) text.old }
{
    for x in text.iter_mut() {
        if S::test(*x) {
            *x = by;
        }
    }
}
