// Why a call is turned back; C sees the numbers. A function that turns calls back answers with one of these, but for the decoder, whose two reasons become
// two of them at a `?`. A test that is only asked, as `validity::is_valid`, answers bool.
#![tactic(auto)]

ghost use Rattle.std.specs.Prelude.{◌≡◌, true, false, OnOk, IfErr};
ghost use Rattle.refusal.specs.Numbers.{number_of};

/// The reasons, in the order of their numbers. A call is tested in the order of `model::specs::Refusals::tests`, and answers the first that holds.
#[derive(Clone, Copy)]
pub enum Refusal {
    /// Not a machine record.
    Machine = 1,
    /// A code of settle or of wake that is not known.
    UnknownCode = 2,
    /// No such processor.
    Processor = 3,
    /// A CPU record of another length.
    CpuLength = 4,
    /// A CPU record that holds what none does, or a CPL above 3.
    CpuRecord = 5,
    /// Guest memory that is too large.
    MemoryLength = 6,
    /// Random data of another length.
    RandomLength = 7,
    /// A byte that no instruction has there.
    BadByte = 8,
    /// The string ends inside an instruction.
    EndOfString = 9,
    /// #UD.
    InvalidOpcode = 10,
    /// #NM.
    NoMath = 11,
    /// #GP.
    General = 12,
    /// #SS.
    Stack = 13,
    /// #PF.
    Page = 14,
    /// Not a keyring, or a label or a handle of another length.
    Keyring = 15,
    /// No record has the label.
    NoLabel = 16,
    /// A keyring without a free record.
    NoRoom = 17,
    /// A buffer, a handle or a counter block of another size.
    BufferSize = 18,
}

impl Refusal {
    /// Its number, which C sees. No From: that the byte is the number is said where it is asked for.
    pub fn number(self) -> u8
        ensures { result ≡ number_of self }
    {
        self as u8
    }
}

/// Turned back for this reason, where the test holds.
pub fn refuse_if(holds: bool, why: Refusal) -> Result<(), Refusal>
    ensures ok { OnOk result (holds ≡ false) }
    ensures err { IfErr result (λ e. (e ≡ why) × (holds ≡ true)) }
{
    if holds { Err(why) } else { Ok(()) }
}
