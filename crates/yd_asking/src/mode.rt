//! The modes in which a root is shown, by their words.

ghost use Rattle.std.specs.Prelude.{◌≡◌, IfSome, IfNone, Some, None};
ghost use Rattle.yd_asking.specs.Table.{mode_in};

use yd_modes::Mode;

/// The mode that the word names.
pub fn mode_named(word: &str) -> Option<Mode>
    ensures found { IfSome result (λ mode. mode_in word.now ≡ Some mode) }
    ensures none { IfNone result (mode_in word.now ≡ None) }
{
    if word == "--text" {
        return Some(Mode::Text);
    }
    if word == "--delta" {
        return Some(Mode::Delta);
    }
    if word == "--array" {
        return Some(Mode::Array);
    }
    if word == "--map" {
        return Some(Mode::Map);
    }
    if word == "--tree" {
        return Some(Mode::Tree);
    }
    None
}
