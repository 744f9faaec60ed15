// The messages that wait, in places that are lent or handed over.
ghost use Rattle.std.specs.Prelude.{◌≡◌, length, vec_len};
ghost use Rattle.messages.specs.Waiting.{sent_one};
ghost use Rattle.waiting.specs.Queues.{queue, no_messages, waiting_at, taken_from};

use messages::messages::Message;
use places::lent_lists::LentList;

#[derive(Drop)]
pub struct WaitingList<'a>(LentList<'a, Message>);

impl<'a> WaitingList<'a> {
    // No message waits, and every place is blank.
    pub fn new(places: &'a mut [Message]) -> WaitingList<'a>
        ensures { queue result ≡ no_messages (length places.old) }
    {
        WaitingList(LentList::new(places))
    }

    // The same in memory of its own, which it keeps: such a list can be returned by whoever made it, and stored.
    pub fn owning(places: Vec<Message>) -> WaitingList<'a>
        ensures { queue result ≡ no_messages (vec_len places) }
    {
        WaitingList(LentList::owning(places))
    }

    // How many messages wait.
    pub fn count(&self) -> usize
        ensures { result ≡ length (queue self.now).waiting }
    {
        self.0.len()
    }

    // The message at a place, if one waits there.
    pub fn get(&self, at: usize) -> Option<Message>
        ensures { result ≡ waiting_at (queue self.now) at }
    {
        self.0.as_slice().get(at).copied()
    }

    // One message more, lost where no place is free.
    pub fn send(&mut self, message: Message)
        ensures { queue self.new ≡ sent_one (queue self.old) message }
    {
        self.0.push(message);
    }

    // Takes the message at a place off, if one waits there.
    pub fn take_off(&mut self, at: usize) -> Option<Message>
        ensures answer { result ≡ waiting_at (queue self.old) at }
        ensures after { queue self.new ≡ taken_from (queue self.old) at }
    {
        self.0.remove(at)
    }
}
