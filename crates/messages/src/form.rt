//! What a parcel is, and what a piece of it is.
ghost use Rattle.std.specs.Prelude.{◌≡◌, IfSome};
ghost use Rattle.messages.specs.Forms.{form_byte, form_of};

/// What a parcel is.
#[derive(Clone, Copy, Debug, PartialEq, Eq)]
pub enum ParcelKind {
    /// At most 23 bytes, always in one piece.
    Event,
    /// 0 to 65,535 bytes.
    Message,
}

/// What a piece is: its first byte says it.
#[derive(Clone, Copy)]
pub enum Form {
    /// A short event.
    Short,
    /// A message of at most 23 bytes.
    Alone,
    /// The first piece of a longer message: two bytes of its length, the low one first, and 21 of its own.
    First,
    /// 23 bytes more, which are not its last.
    Middle,
    /// The 1 to 23 bytes that are left.
    Last,
}

impl Form {
    /// The first byte of a piece of this form.
    pub fn byte(self) -> u8
        ensures { result ≡ form_byte self }
    {
        match self {
            Form::Short => 0,
            Form::Alone => 1,
            Form::First => 2,
            Form::Middle => 3,
            Form::Last => 4,
        }
    }

    /// The form of a piece with this first byte; `None` from 5 on.
    pub fn of(byte: u8) -> Option<Form>
        ensures form { result ≡ form_of byte }
        ensures byte { IfSome result (λ form. form_byte form ≡ byte) }
    {
        match byte {
            0 => Some(Form::Short),
            1 => Some(Form::Alone),
            2 => Some(Form::First),
            3 => Some(Form::Middle),
            4 => Some(Form::Last),
            _ => None,
        }
    }
}
