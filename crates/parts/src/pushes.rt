// Bytes pushed to a queue that has got the memory for them.
ghost use Rattle.std.specs.Prelude.{◌≡◌, ◌+◌, ◌≤◌, ◌++◌, length};
ghost use Rattle.std.specs.VecDeque.{deque_items, deque_len, deque_capacity};

use std::collections::VecDeque;

// These bytes more at the end. One by one, since of the library's `extend` no clause says that it finds memory that was got before.
pub(crate) fn push_all(queue: &mut VecDeque<u8>, bytes: &[u8])
    requires { deque_len queue.old + length bytes.now ≤ deque_capacity queue.old }
    ensures items { deque_items queue.new ≡ deque_items queue.old ++ bytes.now }
    ensures capacity { deque_capacity queue.new ≡ deque_capacity queue.old }
{
    for byte in bytes {
        queue.push_back_reserved(*byte);
    }
}
