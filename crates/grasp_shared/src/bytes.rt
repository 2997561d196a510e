//! The bytes of an input.

ghost use Rattle.grasp_cbor.specs.Bytes.{AllBytes};
ghost use Rattle.grasp_model_node.specs.Divided.{HasBytes};

use grasp_types::Input;

/// The bytes of an input are bytes.
pub fn note_bytes(input: &Input)
    ensures { HasBytes input.now }
{
    match input {
        Input::Datagram { bytes, .. } => note_slice(bytes.bytes()),
        Input::Bytes { bytes, .. } => note_slice(bytes.bytes()),
        Input::Api { .. } | Input::Opened { .. } | Input::Closed { .. } | Input::Drain { .. } => (),
    }
}

/// Bytes are bytes.
fn note_slice(bytes: &[u8])
    ensures { AllBytes bytes.now }
{
    let _count = bytes.len();
}
