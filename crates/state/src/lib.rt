// The machine's registers and condition codes. A value is built here and nowhere else: from `cleared`, through the
// `with_` functions, so that a field that is added later is added in this crate alone.
#![tactic(auto)]

ghost use Rattle.std.specs.Prelude.{◌≡◌, ◌≤◌};
ghost use Rattle.state.specs.Ccr.{no_flags, set_s, set_x, set_h, set_i, set_n, set_z, set_v, set_c, weight_of, ccr_of, flags_of, take_ccr};
ghost use Rattle.state.specs.State.{no_standing, set_waiting, no_state, with_a, with_b, with_d, with_x, with_y, with_sp, with_pc, with_flags, with_standing, with_waiting, with_clock, d_of};

// The condition code register, bit 0 first: most instructions set C, V, Z and N alone, which are then the low half of eight bytes
// (docs/SPEED.md).
#[derive(Clone, Copy)]
pub struct Flags {
    pub c: bool,
    pub v: bool,
    pub z: bool,
    pub n: bool,
    pub i: bool,
    pub h: bool,
    pub x: bool,
    pub s: bool,
}

// What a machine carries from step to step beside its registers and its clock. What a later edition has to remember is a field here:
// then only this record's own functions change.
#[derive(Clone, Copy)]
pub struct Standing {
    pub waiting: bool,
}

// The order decides which fields the compiler joins into one number, to be taken apart again at each use; this one was found by counting
// the host's instructions (docs/SPEED.md, "The order of the fields").
#[derive(Clone, Copy)]
pub struct State {
    pub clock: u32,
    pub a: u8,
    pub flags: Flags,
    pub b: u8,
    pub pc: u16,
    pub sp: u16,
    pub x: u16,
    pub y: u16,
    pub standing: Standing,
}

impl Flags {
    // `cleared`, here and below, and no derived `Default`: that is no plainer, since a caller's line would no longer say which value.
    pub fn cleared() -> Self
        ensures { result ≡ no_flags }
    {
        Flags {
            s: false,
            x: false,
            h: false,
            i: false,
            n: false,
            z: false,
            v: false,
            c: false,
        }
    }

    pub fn with_s(mut self, s: bool) -> Self
        ensures { result ≡ set_s self s }
    {
        self.s = s;
        self
    }

    pub fn with_x(mut self, x: bool) -> Self
        ensures { result ≡ set_x self x }
    {
        self.x = x;
        self
    }

    pub fn with_h(mut self, h: bool) -> Self
        ensures { result ≡ set_h self h }
    {
        self.h = h;
        self
    }

    pub fn with_i(mut self, i: bool) -> Self
        ensures { result ≡ set_i self i }
    {
        self.i = i;
        self
    }

    pub fn with_n(mut self, n: bool) -> Self
        ensures { result ≡ set_n self n }
    {
        self.n = n;
        self
    }

    pub fn with_z(mut self, z: bool) -> Self
        ensures { result ≡ set_z self z }
    {
        self.z = z;
        self
    }

    pub fn with_v(mut self, v: bool) -> Self
        ensures { result ≡ set_v self v }
    {
        self.v = v;
        self
    }

    pub fn with_c(mut self, c: bool) -> Self
        ensures { result ≡ set_c self c }
    {
        self.c = c;
        self
    }

    // The condition codes as a byte. This way and back are methods and no `From`: there is a second way back, `take_ccr`, and a caller's
    // line is to say which.
    pub fn ccr(self) -> u8
        ensures { result ≡ ccr_of self }
    {
        let high = weight(self.s, 128)
            + weight(self.x, 64)
            + weight(self.h, 32)
            + weight(self.i, 16);
        high + weight(self.n, 8) + weight(self.z, 4) + weight(self.v, 2) + weight(self.c, 1)
    }

    // A byte as condition codes, for a state that comes from outside. No instruction takes a byte this way:
    // see `take_ccr`.
    pub fn of_ccr(b: u8) -> Self
        ensures { result ≡ flags_of b }
    {
        let bit = |k: u32| b >> k & 1 == 1;
        Flags {
            s: bit(7),
            x: bit(6),
            h: bit(5),
            i: bit(4),
            n: bit(3),
            z: bit(2),
            v: bit(1),
            c: bit(0),
        }
    }

    // The one way in which an instruction takes a byte into the condition codes: X may be cleared and is never set.
    pub fn take_ccr(self, b: u8) -> Self
        ensures { result ≡ take_ccr self b }
    {
        let taken = Flags::of_ccr(b);
        taken.with_x(self.x & taken.x)
    }
}

// What a flag adds to the byte.
fn weight(t: bool, w: u8) -> u8
    ensures { (result ≡ weight_of t w) × (result ≤ w) }
{
    u8::from(t) * w
}

impl Standing {
    pub fn cleared() -> Self
        ensures { result ≡ no_standing }
    {
        Standing { waiting: false }
    }

    pub fn with_waiting(mut self, waiting: bool) -> Self
        ensures { result ≡ set_waiting self waiting }
    {
        self.waiting = waiting;
        self
    }
}

impl State {
    pub fn cleared() -> Self
        ensures { result ≡ no_state }
    {
        State {
            a: 0,
            b: 0,
            x: 0,
            y: 0,
            sp: 0,
            pc: 0,
            flags: Flags::cleared(),
            standing: Standing::cleared(),
            clock: 0,
        }
    }

    pub fn with_a(mut self, a: u8) -> Self
        ensures { result ≡ with_a self a }
    {
        self.a = a;
        self
    }

    pub fn with_b(mut self, b: u8) -> Self
        ensures { result ≡ with_b self b }
    {
        self.b = b;
        self
    }

    pub fn with_x(mut self, x: u16) -> Self
        ensures { result ≡ with_x self x }
    {
        self.x = x;
        self
    }

    pub fn with_y(mut self, y: u16) -> Self
        ensures { result ≡ with_y self y }
    {
        self.y = y;
        self
    }

    pub fn with_sp(mut self, sp: u16) -> Self
        ensures { result ≡ with_sp self sp }
    {
        self.sp = sp;
        self
    }

    pub fn with_pc(mut self, pc: u16) -> Self
        ensures { result ≡ with_pc self pc }
    {
        self.pc = pc;
        self
    }

    pub fn with_flags(mut self, flags: Flags) -> Self
        ensures { result ≡ with_flags self flags }
    {
        self.flags = flags;
        self
    }

    fn with_standing(mut self, standing: Standing) -> Self
        ensures { result ≡ with_standing self standing }
    {
        self.standing = standing;
        self
    }

    pub fn with_waiting(self, waiting: bool) -> Self
        ensures { result ≡ with_waiting self waiting }
    {
        self.with_standing(self.standing.with_waiting(waiting))
    }

    pub fn with_clock(mut self, clock: u32) -> Self
        ensures { result ≡ with_clock self clock }
    {
        self.clock = clock;
        self
    }

    // D is A and B together, A the high byte.
    pub fn d(self) -> u16
        ensures { result ≡ d_of self }
    {
        word::word(self.a, self.b)
    }

    pub fn with_d(self, d: u16) -> Self
        ensures { result ≡ with_d self d }
    {
        self.with_a(word::high(d)).with_b(word::low(d))
    }
}
