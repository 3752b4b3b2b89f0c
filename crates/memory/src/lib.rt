// The memory: 65,536 lent bytes. What reads it takes a `&Memory`; one function, `commit`, writes it.
#![tactic(auto)]

ghost use Rattle.std.specs.Prelude.{ℕ, ◌≡◌, refl, ◌<◌, ◌≤◌, List};
ghost use Rattle.word.specs.Word.{plus_w};
ghost use Rattle.memory.specs.Memory.{byte_at, word_at, nth_byte, lowest_bytes, store_all, committed, store_is, no_store, store_byte, store_word, store_words, store_nine};

pub type Memory = [u8; 65536];

// What one step writes, from the address `at` upward: the `count` lowest bytes of `number`, the highest of them first. Of more than
// eight the first is `first`, and the other eight are those of `number`. A store is numbers and no array of bytes because the compiler
// takes an array apart: each of its bytes would be a value of its own in every step (docs/SPEED.md).
#[derive(Clone, Copy)]
pub struct Store {
    pub at: u16,
    pub count: u8,
    pub first: u8,
    pub number: u64,
}

impl Store {
    fn of(at: u16, count: u8, first: u8, number: u64) -> Self
        ensures { result ≡ store_is at count first number }
    {
        Store {
            at,
            count,
            first,
            number,
        }
    }

    pub fn none() -> Self
        ensures { result ≡ no_store }
    {
        Store::of(0, 0, 0, 0)
    }

    pub fn byte(at: u16, b: u8) -> Self
        ensures { result ≡ store_byte at b }
    {
        Store::of(at, 1, 0, u64::from(b))
    }

    pub fn word(at: u16, w: u16) -> Self
        ensures { result ≡ store_word at w }
    {
        Store::of(at, 2, 0, u64::from(w))
    }

    // Two words, the first at the lower address.
    pub fn words(at: u16, first: u16, second: u16) -> Self
        ensures { result ≡ store_words at first second }
    {
        Store::of(at, 4, 0, u64::from(word::word::<u32>(first, second)))
    }

    pub fn nine(at: u16, bytes: [u8; 9]) -> Self
        ensures { result ≡ store_nine at bytes }
    {
        let [first, b7, b6, b5, b4, b3, b2, b1, b0] = bytes;
        let number = u64::from_be_bytes([b7, b6, b5, b4, b3, b2, b1, b0]);
        Store::of(at, 9, first, number)
    }
}

// The address after this one: after $FFFF comes $0000.
fn next(at: u16) -> u16
    ensures { result ≡ plus_w at 1 }
{
    word::plus(at, 1)
}

pub fn read_byte(m: &Memory, at: u16) -> u8
    ensures { result ≡ byte_at m.now at }
{
    m[at as usize]
}

pub fn read_word(m: &Memory, at: u16) -> u16
    ensures { result ≡ word_at m.now at }
{
    let high = read_byte(m, at);
    let low = read_byte(m, next(at));
    word::word(high, low)
}

// What one instruction takes from an address or stores at one: a byte or a word.
pub trait Data: Copy {
    ghost use Rattle.memory.specs.declared.Store.{Store};

    ghost SIZE: { ℕ };

    ghost read_at: { List ℕ → ℕ → Self };

    ghost store_at: { ℕ → Self → Store };

    // How many bytes it has.
    const SIZE: u16;

    fn read(m: &Memory, at: u16) -> Self
        ensures { result ≡ read_at m.now at };

    fn store(self, at: u16) -> Store
        ensures { result ≡ store_at at self };

    // As many bytes are stored as it has.
    ghost counts: { (at : ℕ) (v : Self) → (store_at at v).count ≡ SIZE };
}

impl Data for u8 {
    ghost SIZE = { 1 };

    ghost read_at = { byte_at };

    ghost store_at = { store_byte };

    ghost counts = { λ at v. refl };

    const SIZE: u16 = 1;

    fn read(m: &Memory, at: u16) -> Self {
        read_byte(m, at)
    }

    fn store(self, at: u16) -> Store {
        Store::byte(at, self)
    }
}

impl Data for u16 {
    ghost SIZE = { 2 };

    ghost read_at = { word_at };

    ghost store_at = { store_word };

    ghost counts = { λ at v. refl };

    const SIZE: u16 = 2;

    fn read(m: &Memory, at: u16) -> Self {
        read_word(m, at)
    }

    fn store(self, at: u16) -> Store {
        Store::word(at, self)
    }
}

// Byte k of a number, byte 0 the lowest.
fn nth_byte(number: u64, k: u8) -> u8
    requires { k < 8 }
    ensures { result ≡ nth_byte k number }
{
    ((number >> (8 * u32::from(k))) % 256) as u8
}

// Byte by byte, so that a run over the top of the memory goes on at address 0.
fn store_number(m: &mut Memory, start: u16, count: u8, number: u64)
    requires count_bound { count ≤ 8 }
    ensures { m.new ≡ store_all m.old start (lowest_bytes count number) }
{
    let mut at = start;
    for k in (0..count).rev() {
        m[at as usize] = nth_byte(number, k);
        at = next(at);
    }
}

// The one place where the memory changes. A count past nine stores the nine. Most steps store nothing, a byte or a word: these three are
// asked for first, in this order, and are stored without a loop (docs/SPEED.md).
#[tactic(auto, unfolding(crate::specs::Memory::store_all, crate::specs::Memory::lowest_bytes))]
pub fn commit(m: &mut Memory, w: Store)
    ensures { m.new ≡ committed m.old w }
{
    if w.count == 0 {
        return;
    }
    if w.count == 1 {
        m[w.at as usize] = nth_byte(w.number, 0);
        return;
    }
    if w.count == 2 {
        m[w.at as usize] = nth_byte(w.number, 1);
        m[next(w.at) as usize] = nth_byte(w.number, 0);
        return;
    }
    if w.count > 8 {
        m[w.at as usize] = w.first;
        store_number(m, next(w.at), 8, w.number);
    } else {
        store_number(m, w.at, w.count, w.number);
    }
}
