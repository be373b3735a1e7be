//! What stands in the place of OP, in words (1.3.1, 1.3.2).

use mix_refused::Memory;
use mix_said::sentence;
use mixal_text::Mnemonic;
use std::alloc::Global;

pub(crate) fn name_of(mnemonic: Mnemonic) -> &'static str {
    match mnemonic {
        Mnemonic::Machine(operation) => operation.name(),
        Mnemonic::Equ => "EQU",
        Mnemonic::Orig => "ORIG",
        Mnemonic::Con => "CON",
        Mnemonic::Alf => "ALF",
        Mnemonic::End => "END",
    }
}

/// What it does; of an operation of the machine also its C, its F, and its time with that.
pub(crate) fn does(alloc: Global, mnemonic: Mnemonic) -> Result<String, Memory> {
    let text = match mnemonic {
        Mnemonic::Machine(operation) => {
            let does = sentence(alloc, operation)?;
            let code = operation.code();
            let f = operation.normal_f();
            let time = operation.time(f);
            let text = format!(in alloc; "{does} (C = {code}, F = {f}, {time}u)")?;
            return Ok(text);
        }
        Mnemonic::Equ => "the symbol in LOC gets the value of ADDRESS",
        Mnemonic::Orig => "the next words go to the cells from ADDRESS on",
        Mnemonic::Con => "a word, the value of ADDRESS",
        Mnemonic::Alf => "a word of five characters",
        Mnemonic::End => "ends the source; the program begins at ADDRESS",
    };
    Ok(String::from_str(alloc, text)?)
}

/// The same after its name.
pub(crate) fn described(alloc: Global, mnemonic: Mnemonic) -> Result<String, Memory> {
    let name = name_of(mnemonic);
    let does = does(alloc, mnemonic)?;
    let text = format!(in alloc; "{name}: {does}")?;
    Ok(text)
}
