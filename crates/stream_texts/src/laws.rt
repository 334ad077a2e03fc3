//! Streams with a text in front of them.

ghost use Rattle.stream_texts.specs.Texts.{TextsArePassed};

use kryo_stream::growth_law;

/// An Info block in front of a stream without a fault changes none of its transitions and index times, where both are
/// no more bytes than a stream may have.
pub fn texts_are_passed()
    ensures { TextsArePassed }
{
    growth_law()
}
