// The calls of a relay as values, and their answers.
use datadog_inject::answer::TagsAnswer;
use fault::Fault;

// What a relay is told at making.
#[derive(Clone, Copy, PartialEq, Eq, Debug)]
pub struct Settings {
    // The longest x-datadog-tags, at most 1,024.
    pub tag_limit: usize,
}

// A call, with what it is given besides the carrier: a span id, or how many work bytes.
#[derive(Clone, Copy, PartialEq, Eq, Debug)]
pub enum Call {
    Child { span_id: u64 },
    InjectW3c { work: usize },
    InjectDatadog { work: usize },
    ExtractW3c,
    ExtractDatadog,
}

// What a call answered. An accepted Datadog inject also says what became of its tags.
pub type Answer = Result<Option<TagsAnswer>, Fault>;
