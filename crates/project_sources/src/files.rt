//! Reading one file of a project.
ghost use Rattle.std.specs.Prelude.{◌≡◌, ◌≤◌, ◌+◌, false, length, List, IfOk};
ghost use Rattle.bp_base.specs.declared.code.Code.TheVariants.{NoSource};
ghost use Rattle.bp_base.specs.declared.defect.Item.TheVariants.{Named};
ghost use Rattle.bp_checks.specs.Refused.{defect_at};
ghost use Rattle.bp_checks.specs.Stop.{Tells, read_failed};
ghost use Rattle.bp_edges.specs.Causes.{IsCounted};
ghost use Rattle.bp_edges.specs.declared.files.File.{File};
ghost use Rattle.project_sources.specs.Limits.{limited};
ghost use Rattle.project_sources.specs.Reading.{sized, whole_file, Stops};

use bp_base::{Bytes, Code, Defect, Item, LimitHit, Name, Path, Which};
use bp_checks::{Stop, defect_at};
use bp_edges::{ReadError, Tree};
use std::alloc::{AllocError, Global};

/// The greatest number of bytes of a file.
const FILE_BYTES: usize = 1_048_576;

/// The greatest number of bytes of all files.
const SOURCE_BYTES: u64 = 33_554_432;

/// A file is absent.
pub fn no_source(
    alloc: Global,
    component: &[u8],
    at: &[u8],
    path: &Path,
) -> Result<Defect, AllocError>
    ensures { IfOk result (λ defect. defect ≡ defect_at NoSource component.now at.now (Named path.now)) }
{
    let occ = Name::from_bytes(alloc, path.as_bytes())?;
    defect_at(alloc, Code::NoSource, component, at, Item::Named { occ })
}

/// The same bytes, where they are within the limits behind so many that were read before.
#[tactic(auto, unfolding(crate::specs::Reading::sized))]
pub fn sized(bytes: Bytes, seen: u64) -> Result<Bytes, Stop>
    ensures stops { Stops (sized limited seen bytes) result }
    ensures no_fault { read_failed result ≡ false }
    ensures within { IfOk result (λ content. seen + length content ≤ 33554432) }
{
    let len = bytes.as_bytes().len();
    if len > FILE_BYTES {
        return Err(Stop::Limit(LimitHit {
            which: Which::FileBytes,
            count: 1_048_577,
        }));
    }
    if seen > SOURCE_BYTES || len as u64 > SOURCE_BYTES - seen {
        return Err(Stop::Limit(LimitHit {
            which: Which::SourceBytes,
            count: 33_554_433,
        }));
    }
    Ok(bytes)
}

/// The content of a file that has to be there, where `seen` bytes of other files were read before it. Where it is absent, NoSource names
/// the path, with this component and module. The limit of one file is asked before that of all files.
#[tactic(auto, using(crate::proofs::FileLemmas::absent_told, crate::proofs::FileLemmas::read_told))]
pub fn whole_file<T: Tree>(
    alloc: Global,
    tree: &mut T,
    path: &Path,
    seen: u64,
    component: &[u8],
    at: &[u8],
) -> Result<Bytes, Stop>
    ensures tells { Tells (T.files tree.old) (λ (files : List File). whole_file limited files seen component.now at.now path.now) result }
    ensures kept { T.files tree.new ≡ T.files tree.old }
    ensures counted { IsCounted (read_failed result) (T.faults tree.old) (T.faults tree.new) }
    ensures within { IfOk result (λ content. seen + length content ≤ 33554432) }
{
    match tree.read(alloc, path) {
        Ok(None) => Err(Stop::Refused(no_source(alloc, component, at, path)?)),
        Ok(Some(bytes)) => sized(bytes, seen),
        Err(ReadError::Failed) => Err(Stop::ReadFault),
        Err(ReadError::NoMemory) => Err(Stop::NoMemory),
    }
}
