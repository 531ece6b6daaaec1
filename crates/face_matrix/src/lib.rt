// Matrix Market files for C: an edge list read from a text, and written as one.
#![tactic(auto)]

ghost use Rattle.std.specs.Prelude.{◌≡◌, length};
ghost use Rattle.lineage.specs.Stored.{form2};
ghost use Rattle.build_orders.specs.Input.{graph_of};
ghost use Rattle.matrix_lines.specs.Calls.{matrix_read_answer, matrix_read_sources, matrix_read_targets, matrix_write_answer, matrix_write_output};
ghost use Rattle.face.specs.Host.{host_counted};
ghost use Rattle.face_matrix.specs.Matrix.{host_matrix};

use face::DrobistenCounted;
use matrix_read::{MatrixRead, MatrixRefusal};

// What reading a text gives: a refusal with its extra number, or refusal 0, n and the number of edges.
#[repr(C)]
#[derive(Clone, Copy, Debug, PartialEq, Eq)]
pub struct DrobistenMatrix {
    pub refusal: u32,
    pub extra: usize,
    pub n: u32,
    pub edges: usize,
}

impl From<Result<MatrixRead, MatrixRefusal>> for DrobistenMatrix {
    ghost use Rattle.matrix_read.specs.Answer.{read_of};
    ghost use Rattle.face_matrix.specs.Matrix.{host_matrix};

    ghost from_gives = { λ r host. host ≡ host_matrix (read_of r) };

    fn from(r: Result<MatrixRead, MatrixRefusal>) -> DrobistenMatrix {
        match r {
            Ok(MatrixRead { n, edges }) => DrobistenMatrix {
                refusal: 0,
                extra: 0,
                n,
                edges,
            },
            Err(refusal) => DrobistenMatrix {
                refusal: refusal.number(),
                extra: refusal.extra(),
                n: 0,
                edges: 0,
            },
        }
    }
}

// `matrix_read::read_matrix`.
#[unsafe(no_mangle)]
pub extern "C" fn drobisten_read_matrix(
    text: &[u8],
    sources: &mut [u32],
    targets: &mut [u32],
) -> DrobistenMatrix
    ensures value { result ≡ host_matrix (matrix_read_answer form2 text.now (length sources.old) (length targets.old)) }
    ensures sources_after { sources.new ≡ matrix_read_sources form2 text.now sources.old targets.old }
    ensures targets_after { targets.new ≡ matrix_read_targets form2 text.now sources.old targets.old }
{
    matrix_read::read_matrix(text, sources, targets).into()
}

// `matrix_write::write_matrix`.
#[unsafe(no_mangle)]
pub extern "C" fn drobisten_write_matrix(
    sources: &[u32],
    targets: &[u32],
    out: &mut [u8],
    n: u32,
) -> DrobistenCounted
    ensures value { result ≡ host_counted (matrix_write_answer form2 (graph_of n sources.now targets.now) (length out.old)) }
    ensures out_after { out.new ≡ matrix_write_output form2 (graph_of n sources.now targets.now) out.old }
{
    matrix_write::write_matrix(n, sources, targets, out).into()
}
