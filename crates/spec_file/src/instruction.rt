// The instructions of a thread, in two kinds: accesses to memory, and what a thread does by itself. Fields stand in the order of the frame:
// register, location, operands, skip.

// What an instruction computes with: a 32-bit constant, or the value of a register.
#[derive(Clone, Copy)]
pub enum Operand {
    Constant(u32),
    Register(u32),
}

// An access, by which memory and a thread meet.
#[derive(Clone, Copy)]
pub enum Access {
    // 10 l p: store p at l.
    Store(u8, Operand),
    // 11 r l: load l into r.
    Load(u8, u8),
    // 12 r l p: r gets the old value, l gets old plus p.
    FetchAdd(u8, u8, Operand),
    // 13 r l e v: r gets the old value, l gets v if the old value equals e.
    CompareSwap(u8, u8, Operand, Operand),
}

// How a register's value is compared with an operand's.
#[derive(Clone, Copy)]
pub enum Comparison {
    Equal,
    // At most, both read as two's complement.
    AtMost,
}

// What a skip and an assertion ask: r against p.
#[derive(Clone, Copy)]
pub struct Test {
    pub comparison: Comparison,
    pub register: u8,
    pub operand: Operand,
}

// What a thread does by itself.
#[derive(Clone, Copy)]
pub enum Own {
    // 20 r p: r becomes p.
    Assign(u8, Operand),
    // 21 r p: r becomes r plus p.
    AddAssign(u8, Operand),
    // 22 r p n: unless r is p, skip the next n instructions; 24 r p n: unless r is at most p.
    SkipUnless(Test, u8),
    // 23 r p: assert that r is p; 25 r p: that r is at most p.
    Assert(Test),
}

#[derive(Clone, Copy)]
pub enum Instruction {
    Memory(Access),
    Alone(Own),
}
