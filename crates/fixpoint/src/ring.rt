// A ring of bytes, oldest first.
ghost use Rattle.std.specs.Prelude.{◌≡◌, ◌<◌, ◌≤◌, IfNone, [], ◌∷◌, ◌++◌, length, drop};
ghost use Rattle.fixpoint.specs.Arrival.{front, queue};

// The bytes stand from the place `head` on, round and round. A plain array of 128 bytes is a rule of the project.
// The clauses write the queue out: a definition over the struct cannot be imported by the file that declares it.
#[derive(Drop)]
pub struct Ring {
    bytes: [u8; 128],
    head: usize,
    len: usize,
    ghost inside: { head < 128 },
    ghost within: { len ≤ 128 },
}

impl Ring {
    // A ring in which nothing stands.
    pub fn new() -> Ring
        ensures { queue result.bytes result.head result.len ≡ [] }
    {
        Ring {
            bytes: [0; 128],
            head: 0,
            len: 0,
        }
    }

    // Adds x as the newest, where there is room.
    pub fn push(&mut self, x: u8)
        requires { length (queue self.old.bytes self.old.head self.old.len) < 128 }
        ensures { queue self.new.bytes self.new.head self.new.len ≡ queue self.old.bytes self.old.head self.old.len ++ (x ∷ []) }
    {
        self.bytes[(self.head + self.len) % 128] = x;
        self.len += 1;
    }

    // Takes the oldest.
    pub fn pop(&mut self) -> Option<u8>
        ensures oldest { result ≡ front (queue self.old.bytes self.old.head self.old.len) }
        ensures rest { queue self.new.bytes self.new.head self.new.len ≡ drop 1 (queue self.old.bytes self.old.head self.old.len) }
        ensures empty { IfNone result (self.new ≡ self.old) }
    {
        if self.len == 0 {
            return None;
        }
        let x = self.bytes[self.head];
        self.head = (self.head + 1) % 128;
        self.len -= 1;
        Some(x)
    }
}
