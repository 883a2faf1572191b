//! Starts a program with its arguments, its standard input and its standard output.

pub use resil_input::io::FailureTracking;
pub use resil_input::kept::{KeptFront, KeptInput};
pub use resil_input::output::{Output, write_output};

/// Passes a program's arguments, its input and its output to an expression that returns a status. Passes that, with the arguments, the
/// front of the output and the input, to a function that explains them on standard error. The value is the status.
///
/// This is a macro, since in a function a thread of a `run` would rest on a bound that is assumed only of the caller's thread.
#[macro_export]
macro_rules! start {
    ($rt:expr, |$words:ident, $reader:ident, $writer:ident| $drive:expr, $say:path) => {{
        let mut reader = $crate::KeptInput::new($crate::FailureTracking::new($rt.reader()));
        let mut writer = $crate::KeptFront::new($crate::FailureTracking::new(std::io::writer($rt)));
        match $crate::own_words($rt) {
            Ok(owned) => match $crate::borrowed($rt.alloc(), &owned) {
                Ok(words) => {
                    let ($words, $reader, $writer) = (&words, &mut reader, &mut writer);
                    let code = $drive;
                    $say($rt, &words, code, writer.front(), reader.input());
                    code
                }
                Err(_) => $crate::write_output(&mut writer, &$crate::Output::NoMemory).code(),
            },
            Err(output) => $crate::write_output(&mut writer, &output).code(),
        }
    }};
}
