//! The DBR types: a base and a form each (Channel Access Protocol Specification, "Payload Data
//! Types").
ghost use Rattle.std.specs.Prelude.{◌≡◌, ◌*◌, ◌<◌, ◌≤◌, ◌^◌, IsNone, IfSome, SomeIff};
ghost use Rattle.dbr_layout.specs.Dbr.{base_number, element_size, form_number};

/// The size of a payload is a multiple of this many bytes.
pub const ALIGNMENT: usize = 8;

/// The size of the largest payload that is laid out, in bytes.
pub const MAX_PAYLOAD: u32 = 16_777_216;

/// How many bases there are. The types of one form have as many numbers in a row.
pub(crate) const BASES: u16 = 7;

/// What an element is, numbered from 0 in this order.
#[derive(Clone, Copy, Debug, PartialEq, Eq, Hash)]
pub enum Base {
    /// Text up to a NUL, in 40 bytes.
    String,
    /// A signed number of 16 bits.
    Short,
    /// A floating-point number of 32 bits.
    Float,
    /// The number of a state, unsigned, of 16 bits.
    Enum,
    /// An unsigned number of 8 bits.
    Char,
    /// A signed number of 32 bits.
    Long,
    /// A floating-point number of 64 bits.
    Double,
}

/// What stands in a payload before the elements, numbered from 0 in this order.
#[derive(Clone, Copy, Debug, PartialEq, Eq, Hash)]
pub enum Form {
    /// Nothing.
    Plain,
    /// The alarm: its status and its severity.
    Sts,
    /// The alarm and the time stamp.
    Time,
    /// The alarm, the units and the limits for display and alarms, or the texts of the states.
    Gr,
    /// The same and the limits for control.
    Ctrl,
}

impl Base {
    pub(crate) fn of(number: u16) -> Option<Base>
        ensures found { IfSome result (λ base. base_number base ≡ number) }
        ensures none { IsNone result → BASES ≤ number }
    {
        match number {
            0 => Some(Base::String),
            1 => Some(Base::Short),
            2 => Some(Base::Float),
            3 => Some(Base::Enum),
            4 => Some(Base::Char),
            5 => Some(Base::Long),
            6 => Some(Base::Double),
            _ => None,
        }
    }

    pub(crate) fn number(self) -> u16
        ensures { result ≡ base_number self }
    {
        self as u16
    }

    /// The bytes of one element.
    pub(crate) fn element(self) -> u32
        ensures { result ≡ element_size self }
    {
        [40, 2, 4, 2, 1, 4, 8][self as usize]
    }
}

impl Form {
    pub(crate) fn of(number: u16) -> Option<Form>
        ensures found { IfSome result (λ form. form_number form ≡ BASES * number) }
        ensures none { IsNone result → 5 ≤ number }
    {
        match number {
            0 => Some(Form::Plain),
            1 => Some(Form::Sts),
            2 => Some(Form::Time),
            3 => Some(Form::Gr),
            4 => Some(Form::Ctrl),
            _ => None,
        }
    }

    fn number(self) -> u16
        ensures { result ≡ form_number self }
    {
        self as u16 * BASES
    }
}

/// A DBR type.
#[derive(Clone, Copy, Debug, PartialEq, Eq, Hash)]
pub struct Dbr {
    pub base: Base,
    pub form: Form,
}

impl Dbr {
    ghost use Rattle.dbr_layout.specs.Dbr.{dbr_of, number_of, payload_size, value_end, value_offset};

    /// The type with this number: those of all bases in all forms are served.
    #[tactic(auto, unfolding(crate::specs::Dbr::dbr_of))]
    pub fn of(number: u16) -> Option<Dbr>
        ensures { result ≡ dbr_of number }
    {
        let base = Base::of(number % BASES)?;
        let form = Form::of(number / BASES)?;
        Some(Dbr { base, form })
    }

    /// The number of the type.
    pub fn number(self) -> u16
        ensures { result ≡ number_of self }
    {
        self.form.number() + self.base.number()
    }

    /// Where in a payload the elements begin, in bytes.
    pub fn offset(self) -> u32
        ensures { result ≡ value_offset self }
    {
        let row = match self.form {
            Form::Plain => [0, 0, 0, 0, 0, 0, 0],
            Form::Sts => [4, 4, 4, 4, 5, 4, 8],
            Form::Time => [12, 14, 12, 14, 15, 12, 16],
            Form::Gr => [4, 24, 40, 422, 19, 36, 64],
            Form::Ctrl => [4, 28, 48, 422, 21, 44, 80],
        };
        row[self.base as usize]
    }

    /// The bytes of one element.
    pub fn element(self) -> u32
        ensures { result ≡ element_size self.base }
    {
        self.base.element()
    }

    /// Where this many elements end, in bytes.
    pub(crate) fn value_end(self, count: u32) -> usize
        ensures value { result ≡ value_end self count }
        ensures fits { result < 2 ^ 40 }
    {
        self.offset() as usize + count as usize * self.element() as usize
    }

    /// The size of a payload with this many elements, its padding counted, where it is within
    /// `MAX_PAYLOAD`.
    pub fn size_of(self, count: u32) -> Option<u32>
        ensures { SomeIff result (payload_size self count ≤ MAX_PAYLOAD) (payload_size self count) }
    {
        let size = self.value_end(count).next_multiple_of(ALIGNMENT);
        if size <= MAX_PAYLOAD as usize {
            Some(size as u32)
        } else {
            None
        }
    }
}
