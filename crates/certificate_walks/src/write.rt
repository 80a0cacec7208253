//! A certificate, written as the walk of all items under the limit of the keys that were found.

ghost use Rattle.std.specs.Prelude.{◌≡◌, ◌≢◌, ◌≤◌, IfOk, OnOk, OnErr};
ghost use Rattle.signal_base.specs.declared.limits.TheConstants.{GREATEST_COST};
ghost use Rattle.definitions.specs.answers.Blocks.{items};
ghost use Rattle.field_tables.specs.Scored.{costs_of};
ghost use Rattle.bank_files.specs.Seen.{OnlyWrites, SameCounts, WriteFails};
ghost use Rattle.bank_files.specs.Told.{Missing, output_name};
ghost use Rattle.certificates.specs.declared.limits.TheConstants.{MOST_PARTS};
ghost use Rattle.certificate_walks.specs.Appending.{IsAppended, IsCutShort};
ghost use Rattle.certificate_walks.specs.Written.{IsCutOff, IsWritten};

use crate::walk::{Walker, limit_named};
use bank_files::{Failed, Files};
use certificate_texts::{Held, flush, head_text, put, tail_text};
use certificates::Head;
use definitions::{Block, bound_is_one, items_share_the_sequences};
use field_tables::Tables;

/// Makes a file anew and writes a certificate to it, and tells how many steps it has. The head names the window of the tables,
/// a ceiling of at most 1,920,000,000, and the keys that were found; the list has all items of the window, in their own order.
/// The certificate has so many parts, 1 to 8, and all its lines stand in the first: the walks of the items, in which no block
/// above the limit of the second key and the ceiling is opened. It takes no memory. After `Failed` the file is as before, or
/// has a front of the certificate.
pub fn write_certificate<F: Files>(
    files: &mut F,
    name: &str,
    tables: &Tables,
    list: &[Block],
    head: &Head,
    parts: u8,
) -> Result<u64, Failed>
    requires name { name.now ≢ output_name }
    requires window { head.now.window ≡ tables.now.window }
    requires ceiling { head.now.ceiling ≤ GREATEST_COST }
    requires items { list.now ≡ items head.now.window }
    requires some_part { 1 ≤ parts }
    requires few_parts { parts ≤ MOST_PARTS }
    ensures written { IfOk result (λ steps. IsWritten (costs_of tables.now) head.now parts ((F.view files.old).told name.now) ((F.view files.new).told name.now) steps) }
    ensures failed { OnErr result (IsCutOff (costs_of tables.now) head.now parts ((F.view files.old).told name.now) ((F.view files.new).told name.now)) }
    ensures cause { OnErr result (WriteFails name.now (F.view files.old) (F.view files.new)) }
    ensures same_counts { OnOk result (SameCounts (F.view files.old) (F.view files.new)) }
    ensures only { OnlyWrites name.now (F.view files.old) (F.view files.new) }
{
    files.create(name)?;
    let steps = append_certificate(files, name, tables, list, head, parts)?;
    Ok(steps)
}

// The same of a file that was made.
fn append_certificate<F: Files>(
    files: &mut F,
    name: &str,
    tables: &Tables,
    list: &[Block],
    head: &Head,
    parts: u8,
) -> Result<u64, Failed>
    requires there { (F.view files.old).told name.now ≢ Missing }
    requires window { head.now.window ≡ tables.now.window }
    requires ceiling { head.now.ceiling ≤ GREATEST_COST }
    requires items { list.now ≡ items head.now.window }
    requires some_part { 1 ≤ parts }
    requires few_parts { parts ≤ MOST_PARTS }
    ensures written { IfOk result (λ steps. IsAppended (costs_of tables.now) head.now parts name.now (F.view files.old) (F.view files.new) steps) }
    ensures failed { OnErr result (IsCutShort (costs_of tables.now) head.now parts name.now (F.view files.old) (F.view files.new)) }
{
    items_share_the_sequences();
    bound_is_one();
    let _ = tables.window();
    let walker = Walker {
        name,
        tables,
        limit: limit_named(head.ceiling, head.second),
    };
    let mut held = Held::new();
    let mut steps = 0;
    put(files, name, &mut held, head_text(head).as_str())?;
    walker.write_items(files, &mut held, &mut steps, list)?;
    put(files, name, &mut held, tail_text(parts).as_str())?;
    flush(files, name, &held)?;
    Ok(steps)
}
