// What an inject answers about its tags.
ghost use Rattle.std.specs.Prelude.{◌≡◌};
ghost use Rattle.datadog_inject.specs.Answers.{number, word};
ghost use Rattle.std.specs.Option.{option_map};

// Whether the tags were sent, or why not.
#[derive(Clone, Copy, PartialEq, Eq, Debug)]
pub enum TagsAnswer {
    Sent,
    NothingToSend,
    Disabled,
    InjectMaxSize,
    EncodingError,
}

impl TagsAnswer {
    // Its number: each answer has one, as refusals have.
    pub fn number(self) -> u8
        ensures { result ≡ number self }
    {
        self as u8
    }

    // No `Display`: two answers have no word, and tags are bytes. The word that is put as the error tag's value, if there is an error.
    pub fn word(self) -> Option<&'static [u8]>
        ensures { option_map (λ x. x.now) result ≡ word self }
    {
        match self {
            TagsAnswer::Sent | TagsAnswer::NothingToSend => None,
            TagsAnswer::Disabled => Some(b"disabled"),
            TagsAnswer::InjectMaxSize => Some(b"inject_max_size"),
            TagsAnswer::EncodingError => Some(b"encoding_error"),
        }
    }
}
