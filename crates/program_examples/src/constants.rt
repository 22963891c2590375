//! The numbers behind words that laws and definitions share.
ghost use Rattle.program_examples.specs.Constants.{CodesAreNumbers, MethodsAreNumbers};
ghost use Rattle.program_examples.specs.Constants.{EndsAreTold, WindowsAreNumbers};

/// Each code and each method is its number.
pub fn codes_and_methods_are_numbers()
    ensures codes { CodesAreNumbers }
    ensures methods { MethodsAreNumbers }
{}

/// An end is told as 1 and the value that was left, or as 0 and 0. The window of slot k begins at
/// 4,096 times k + 1, a block is 64 zeros at first, and what is not refused is answered with `EOK`.
pub fn words_of_services_are_numbers()
    ensures ends { EndsAreTold }
    ensures windows { WindowsAreNumbers }
{}
