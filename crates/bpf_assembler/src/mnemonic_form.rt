//! The table of mnemonics.
ghost use Rattle.std.specs.Prelude.{◌≡◌};
ghost use Rattle.bpf_assembler.specs.Mnemonic.{name_of, form_named};

use bpf_insn::{
    ByteOrder, Condition, LoadFormat, Operation, SignExtension, StoreSize, SwapWidth, Width,
    instruction_rows,
};

/// What a mnemonic says about an instruction: everything except the operands.
#[derive(Clone, Copy)]
pub enum MnemonicForm {
    Alu(Operation, Width),
    MoveSignExtended(SignExtension),
    Negate(Width),
    ByteSwap(ByteOrder, SwapWidth),
    JumpIf(Condition, Width),
    /// A jump with a distance of 16 bits.
    ShortJump,
    /// A jump with a distance of 32 bits.
    LongJump,
    Call,
    Exit,
    Load(LoadFormat),
    StoreImmediate(StoreSize),
    Store(StoreSize),
    WideLoad,
}

/// Passes the given tokens and each form with its mnemonic to a macro.
macro_rules! each_form {
    (
        ($write:ident $given:tt)
        alu { $($operation:ident: $wide:literal $narrow:literal $($flat_alu:ident)*;)* }
        extend { $($extension:ident: $extend:literal $flat_extend:ident;)* }
        negate { $($width:ident: $negate:literal $flat_negate:ident;)* }
        swap { $($order:ident: $s16:literal $s32:literal $s64:literal $($flat_swap:ident)*;)* }
        jump { $($condition:ident: $jump:literal $jump32:literal $($flat_jump:ident)*;)* }
        load { $($format:ident: $load:literal $($flat_load:ident)*;)* }
        store { $($size:ident: $immediate:literal $register:literal $($flat_store:ident)*;)* }
        single { $($single:ident: $name:literal;)* }
    ) => {
        $write! {
            $given
            $((MnemonicForm::Alu(Operation::$operation, Width::Bits64)) $wide;)*
            $((MnemonicForm::Alu(Operation::$operation, Width::Bits32)) $narrow;)*
            $((MnemonicForm::MoveSignExtended(SignExtension::$extension)) $extend;)*
            $((MnemonicForm::Negate(Width::$width)) $negate;)*
            $(
                (MnemonicForm::ByteSwap(ByteOrder::$order, SwapWidth::Bits16)) $s16;
                (MnemonicForm::ByteSwap(ByteOrder::$order, SwapWidth::Bits32)) $s32;
                (MnemonicForm::ByteSwap(ByteOrder::$order, SwapWidth::Bits64)) $s64;
            )*
            $((MnemonicForm::JumpIf(Condition::$condition, Width::Bits64)) $jump;)*
            $((MnemonicForm::JumpIf(Condition::$condition, Width::Bits32)) $jump32;)*
            $((MnemonicForm::Load(LoadFormat::$format)) $load;)*
            $((MnemonicForm::StoreImmediate(StoreSize::$size)) $immediate;)*
            $((MnemonicForm::Store(StoreSize::$size)) $register;)*
            $((MnemonicForm::$single) $name;)*
        }
    };
}

/// Expands to the list of the forms.
macro_rules! forms {
    (() $($form:tt $name:literal;)*) => { [$($form),*] };
}

/// Expands to the match from a form to its mnemonic.
macro_rules! name {
    (($of:expr) $($form:tt $name:literal;)*) => { match $of { $($form => $name,)* } };
}

macro_rules! count {
    (() $($form:tt $name:literal;)*) => { 0 $(+ unit!($name))* };
}

macro_rules! unit {
    ($name:literal) => { 1 };
}

const FORM_COUNT: usize = instruction_rows!(each_form!(count()));

/// Each form, once.
pub const FORMS: [MnemonicForm; FORM_COUNT] = instruction_rows!(each_form!(forms()));

impl MnemonicForm {
    /// Returns the form that a mnemonic names.
    pub(crate) fn named(word: &[u8]) -> Option<MnemonicForm>
        ensures { result ≡ form_named word.now }
    {
        FORMS
            .iter()
            .copied()
            .find(|form| form.name().as_bytes() == word)
    }

    /// Returns the form's mnemonic.
    pub fn name(self) -> &'static str
        ensures { result.now ≡ name_of self }
    {
        instruction_rows!(each_form!(name(self)))
    }
}
