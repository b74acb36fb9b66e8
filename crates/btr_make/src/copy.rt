// The bytes of a superblock copy, one field after another.
ghost use Rattle.std.specs.Prelude.{◌≡◌, ◌+◌, ◌≤◌, ◌++◌, length};
ghost use Rattle.arrayvec.specs.ArrayVec.{array_vec_len};
ghost use Rattle.btr_base.specs.Sum.{kind_of_type};
ghost use Rattle.btr_make.specs.Copy.{super_copy, super_body, sum_before, zeros, number_u64, number_u32, number_u16, ids, roots, sizes, geometry};
ghost use Rattle.btr_make.specs.Copy.{features, device, names, chunks};

use arrayvec::ArrayVec;
use btr_base::{SumKind, sum};
use btr_super::Super;

type Bytes = ArrayVec<u8, 4096>;

// Appends a field.
fn push(bytes: &mut Bytes, field: &[u8])
    requires { array_vec_len bytes.old + length field.now ≤ 4096 }
    ensures items { bytes.new.items ≡ bytes.old.items ++ field.now }
    ensures len { array_vec_len bytes.new ≡ array_vec_len bytes.old + length field.now }
{
    match bytes.try_extend_from_slice(field) {
        Ok(()) => {}
        Err(_) => unreachable!(),
    }
}

#[tactic(auto, unfolding(crate::specs::Copy::number_u64))]
fn push_u64(bytes: &mut Bytes, n: u64)
    requires { array_vec_len bytes.old + 8 ≤ 4096 }
    ensures items { bytes.new.items ≡ bytes.old.items ++ number_u64 n }
    ensures len { array_vec_len bytes.new ≡ array_vec_len bytes.old + 8 }
{
    push(bytes, &n.to_le_bytes());
}

#[tactic(auto, unfolding(crate::specs::Copy::number_u32))]
fn push_u32(bytes: &mut Bytes, n: u32)
    requires { array_vec_len bytes.old + 4 ≤ 4096 }
    ensures items { bytes.new.items ≡ bytes.old.items ++ number_u32 n }
    ensures len { array_vec_len bytes.new ≡ array_vec_len bytes.old + 4 }
{
    push(bytes, &n.to_le_bytes());
}

#[tactic(auto, unfolding(crate::specs::Copy::number_u16))]
fn push_u16(bytes: &mut Bytes, n: u16)
    requires { array_vec_len bytes.old + 2 ≤ 4096 }
    ensures items { bytes.new.items ≡ bytes.old.items ++ number_u16 n }
    ensures len { array_vec_len bytes.new ≡ array_vec_len bytes.old + 2 }
{
    push(bytes, &n.to_le_bytes());
}

// Appends bytes without a field.
#[tactic(auto, unfolding(crate::specs::Copy::zeros))]
fn push_zeros(bytes: &mut Bytes, count: usize)
    requires { array_vec_len bytes.old + count ≤ 4096 }
    ensures items { bytes.new.items ≡ bytes.old.items ++ zeros count }
    ensures len { array_vec_len bytes.new ≡ array_vec_len bytes.old + count }
{
    for _ in 0..count {
        push(bytes, &[0]);
    }
}

#[tactic(auto, unfolding(crate::specs::Copy::ids))]
fn push_ids(bytes: &mut Bytes, sup: &Super, place: u64)
    requires { array_vec_len bytes.old + 48 ≤ 4096 }
    ensures items { bytes.new.items ≡ bytes.old.items ++ ids sup.now place }
    ensures len { array_vec_len bytes.new ≡ array_vec_len bytes.old + 48 }
{
    push(bytes, &sup.fsid);
    push_u64(bytes, place);
    push_u64(bytes, sup.flags);
    push(bytes, b"_BHRfS_M");
    push_u64(bytes, sup.generation);
}

#[tactic(auto, unfolding(crate::specs::Copy::roots))]
fn push_roots(bytes: &mut Bytes, sup: &Super)
    requires { array_vec_len bytes.old + 32 ≤ 4096 }
    ensures items { bytes.new.items ≡ bytes.old.items ++ roots sup.now }
    ensures len { array_vec_len bytes.new ≡ array_vec_len bytes.old + 32 }
{
    push_u64(bytes, sup.root);
    push_u64(bytes, sup.chunk_root);
    push_u64(bytes, sup.log_root);
    push_zeros(bytes, 8);
}

#[tactic(auto, unfolding(crate::specs::Copy::sizes))]
fn push_sizes(bytes: &mut Bytes, sup: &Super)
    requires { array_vec_len bytes.old + 32 ≤ 4096 }
    ensures items { bytes.new.items ≡ bytes.old.items ++ sizes sup.now }
    ensures len { array_vec_len bytes.new ≡ array_vec_len bytes.old + 32 }
{
    push_u64(bytes, sup.total_bytes);
    push_u64(bytes, sup.bytes_used);
    push_u64(bytes, sup.root_dir);
    push_u64(bytes, sup.num_devices);
}

#[tactic(auto, unfolding(crate::specs::Copy::geometry))]
fn push_geometry(bytes: &mut Bytes, sup: &Super)
    requires { array_vec_len bytes.old + 28 ≤ 4096 }
    ensures items { bytes.new.items ≡ bytes.old.items ++ geometry sup.now }
    ensures len { array_vec_len bytes.new ≡ array_vec_len bytes.old + 28 }
{
    push_u32(bytes, sup.sectorsize);
    push_u32(bytes, sup.nodesize);
    push_u32(bytes, sup.leafsize);
    push_u32(bytes, sup.stripesize);
    push_u32(bytes, sup.sys_chunk_array_size);
    push_u64(bytes, sup.chunk_root_generation);
}

#[tactic(auto, unfolding(crate::specs::Copy::features))]
fn push_features(bytes: &mut Bytes, sup: &Super)
    requires { array_vec_len bytes.old + 29 ≤ 4096 }
    ensures items { bytes.new.items ≡ bytes.old.items ++ features sup.now }
    ensures len { array_vec_len bytes.new ≡ array_vec_len bytes.old + 29 }
{
    push_u64(bytes, sup.compat);
    push_u64(bytes, sup.compat_ro);
    push_u64(bytes, sup.incompat);
    push_u16(bytes, sup.csum_type);
    let levels = [sup.root_level, sup.chunk_root_level, sup.log_root_level];
    push(bytes, &levels);
}

#[tactic(auto, unfolding(crate::specs::Copy::device))]
fn push_device(bytes: &mut Bytes, sup: &Super)
    requires { array_vec_len bytes.old + 98 ≤ 4096 }
    ensures items { bytes.new.items ≡ bytes.old.items ++ device sup.now }
    ensures len { array_vec_len bytes.new ≡ array_vec_len bytes.old + 98 }
{
    push_u64(bytes, sup.devid);
    push_zeros(bytes, 58);
    push(bytes, &sup.dev_uuid);
    push_zeros(bytes, 16);
}

#[tactic(auto, unfolding(crate::specs::Copy::names))]
fn push_names(bytes: &mut Bytes, sup: &Super)
    requires { array_vec_len bytes.old + 512 ≤ 4096 }
    ensures items { bytes.new.items ≡ bytes.old.items ++ names sup.now }
    ensures len { array_vec_len bytes.new ≡ array_vec_len bytes.old + 512 }
{
    push(bytes, &sup.label);
    push_u64(bytes, sup.cache_generation);
    push_u64(bytes, sup.uuid_tree_generation);
    push(bytes, &sup.metadata_uuid);
    push(bytes, &sup.reserved);
}

#[tactic(auto, unfolding(crate::specs::Copy::chunks))]
fn push_chunks(bytes: &mut Bytes, sup: &Super)
    requires { array_vec_len bytes.old + 3285 ≤ 4096 }
    ensures items { bytes.new.items ≡ bytes.old.items ++ chunks sup.now }
    ensures len { array_vec_len bytes.new ≡ array_vec_len bytes.old + 3285 }
{
    push(bytes, &sup.array);
    push(bytes, &sup.backups);
}

// What the checksum of a copy covers.
#[tactic(auto, unfolding(crate::specs::Copy::super_body))]
fn body_of(sup: &Super, place: u64) -> Bytes
    ensures items { result.items ≡ super_body sup.now place }
    ensures len { array_vec_len result ≡ 4064 }
{
    let mut bytes = Bytes::new();
    push_ids(&mut bytes, sup, place);
    push_roots(&mut bytes, sup);
    push_sizes(&mut bytes, sup);
    push_geometry(&mut bytes, sup);
    push_features(&mut bytes, sup);
    push_device(&mut bytes, sup);
    push_names(&mut bytes, sup);
    push_chunks(&mut bytes, sup);
    bytes
}

// The checksum of a copy's bytes from 32 on, or 32 zeros where its type isn't supported.
#[tactic(auto, unfolding(crate::specs::Copy::zeros))]
fn sum_of_body(csum_type: u16, body: &[u8]) -> [u8; 32]
    ensures { result ≡ sum_before (kind_of_type csum_type) body.now }
{
    match SumKind::from_type(csum_type) {
        Some(kind) => sum(kind, body).bytes,
        None => [0; 32],
    }
}

/// The 4096 bytes of the copy that stands at a place.
#[tactic(auto, unfolding(crate::specs::Copy::super_copy))]
pub(crate) fn copy_of(sup: &Super, place: u64) -> ArrayVec<u8, 4096>
    ensures { result.items ≡ super_copy sup.now place }
{
    let body = body_of(sup, place);
    let mut copy = Bytes::new();
    push(&mut copy, &sum_of_body(sup.csum_type, &body));
    push(&mut copy, &body);
    copy
}
