// The content of an entry: at most 40 bytes.
ghost use Rattle.std.specs.Prelude.{◌≡◌, []};
ghost use Rattle.ledgers.specs.Bodies.{content, body_of, made_body};

use places::short_lists::ShortList;

pub const MAX_BODY: usize = 40;

#[derive(Clone, Copy, PartialEq, Eq)]
pub struct Body(ShortList<u8, MAX_BODY>);

impl Body {
    // The body with these bytes; none where they are more than an entry takes.
    pub fn new(content: &[u8]) -> Option<Body>
        ensures { result ≡ made_body content.now }
    {
        Some(Body(ShortList::from_slice(content)?))
    }

    // The body with no bytes.
    pub fn empty() -> Body
        ensures { result ≡ body_of [] }
    {
        Body(ShortList::new())
    }

    // The bytes that count.
    pub fn as_slice(&self) -> &[u8]
        ensures { result.now ≡ content self.now }
    {
        self.0.as_slice()
    }
}
