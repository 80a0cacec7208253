//! Certificates of which something is wrong, and what is told of them.

ghost use Rattle.definitions.specs.examples.Sequences.{costs_by_symbol};
ghost use Rattle.formats.specs.Refusals.CertificateFault.{NotAbove, Uncovered, WrongBound};
ghost use Rattle.certificates.specs.declared.certificate.Kind.TheVariants.{Opened, Pruned};
ghost use Rattle.certificates.specs.Examples.{hour, line_of, one_step, two_minutes, year};
ghost use Rattle.certificates.specs.Judged.{IsBadCertificate};
ghost use Rattle.certificates.specs.Texts.{certificate_text};
ghost use Rattle.std.specs.Prelude.{Some};

use definitions::bound_is_one;
use definitions::examples::blocks::bound_of_two_minutes;

/// The first step of a certificate is step 1. It is an hour where a year is due, and its bound, which is 112, is wrong too; a year
/// with a wrong bound; and a year that is pruned though its key isn't above the ceiling's.
pub fn first_steps_that_are_wrong()
    ensures uncovered { IsBadCertificate costs_by_symbol two_minutes 1_000 (certificate_text (one_step (line_of Opened hour (Some 111)))) (Uncovered 1) }
    ensures wrong_bound { IsBadCertificate costs_by_symbol two_minutes 1_000 (certificate_text (one_step (line_of Pruned year (Some 111)))) (WrongBound 1) }
    ensures not_above { IsBadCertificate costs_by_symbol two_minutes 1_000 (certificate_text (one_step (line_of Pruned year (Some 112)))) (NotAbove 1) }
{
    bound_of_two_minutes();
    bound_is_one();
}
