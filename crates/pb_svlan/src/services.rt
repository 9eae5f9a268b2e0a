//! The services of a bridge and the ports that are their members.

ghost use Rattle.std.specs.Prelude.{◌≡◌, ◌+◌, ◌≤◌, ◌↔◌, ◌++◌, ◌∷◌, [], ◌==◌, true, false, length};
ghost use Rattle.std.specs.Prelude.{unwrap_or, IsTrue, IsOk, IfOk, IfErr, IsSome, OnOk, OnErr, IsErrOf, Some};
ghost use Rattle.std.specs.Prelude.{option_copied};
ghost use Rattle.std.specs.List.{list_any, list_all};
ghost use Rattle.pb_frame.specs.Admission.{same, is_admitted, refusal};
ghost use Rattle.pb_svlan.specs.declared.port.Join.{Join};
ghost use Rattle.pb_svlan.specs.Entering.{IsEntered};
ghost use Rattle.pb_frame.specs.Lists.{Rises};
ghost use Rattle.pb_svlan.specs.ServiceTables.{vid_of, is_known, are_known, has_name, has_vid, is_taken};
ghost use Rattle.pb_svlan.specs.ServiceTables.{is_member, is_member_as, kind_at, attached, carried, vids_of, ports_of};
ghost use Rattle.pb_svlan.specs.ServiceTables.{pcp_of, vid_at};
ghost use Rattle.pb_svlan.specs.declared.port.PortKind.TheVariants.{Customer, Trunk};

mod copying;

use crate::attachments::{attach, kind_at};
use crate::enter::refusal;
use crate::entered::Entered;
use crate::fault::{AddFault, JoinFault};
use crate::port::{Attachment, Join, PortKind};
use crate::vid::Vid;
use indexmap::IndexMap;
use pb_frame::{Memory, Reason, Seq, Text, has_priority_tag, index_of, priority_of};
use std::alloc::{AllocError, Global};
use std::marker::Model;

/// The most services of a bridge.
const MOST: usize = 64;

/// The services of a bridge, numbered from 1 in the order in which they were added, and the ports that
/// are their members (IEEE 802.1Q clause 8.8).
#[derive(Drop)]
pub struct Services {
    services: IndexMap<Vid, Text>,
    ports: Vec<Attachment>,
}

impl Model for Services {
    ghost use Rattle.std.specs.Prelude.{◌≤◌, length, map};
    ghost use Rattle.pb_frame.specs.Lists.{Rises};
    ghost use Rattle.pb_svlan.specs.ServiceTables.{ServiceTable};

    ghost Value = { ServiceTable };

    ghost view = { λ s. record { services = s.services.entries; ports = s.ports.items } };

    ghost invariant = { λ s. (length s.services.entries ≤ 64) × Rises (map (λ a. a.port) s.ports.items) };
}

impl Services {
    /// Returns a table without services and ports. Allocates nothing.
    pub fn new(alloc: Global) -> Services
        ensures services { result.services ≡ [] }
        ensures ports { result.ports ≡ [] }
    {
        Services {
            services: IndexMap::new(alloc),
            ports: Vec::new(alloc),
        }
    }

    /// Returns the number of services.
    pub fn len(&self) -> usize
        ensures { result ≡ length self.now.services }
    {
        self.services.len()
    }

    /// Checks whether there is no service.
    pub fn is_empty(&self) -> bool
        ensures { IsTrue result ↔ (self.now.services ≡ []) }
    {
        self.services.is_empty()
    }

    /// Checks whether a service has the name.
    fn has_name(&self, name: &str) -> bool
        ensures { result ≡ has_name self.now name.now }
    {
        contains_name(self.services.values().as_slice(), name)
    }

    /// Checks whether a service has the VID.
    fn has_vid(&self, vid: u16) -> bool
        ensures { result ≡ has_vid self.now vid }
    {
        contains_vid(self.services.keys().as_slice(), vid)
    }

    /// Adds a service (IEEE 802.1Q clause 9.6) and returns its number, counted from 1.
    ///
    /// # Errors
    ///
    /// `TakenName` if a service has the name, otherwise `TakenVid` if a service has the VID, otherwise `TooMany` if
    /// there are 64 services, otherwise `Memory` if an allocation failed. The services are unchanged then.
    pub fn add(&mut self, alloc: Global, name: &str, vid: Vid) -> Result<u8, AddFault>
        ensures ok { OnOk result (self.new ≡ record self.old { services = self.old.services ++ (vid, name.now) ∷ [] }) }
        ensures number { IfOk result (λ n. n ≡ length self.old.services + 1) }
        ensures err { OnErr result (self.new ≡ self.old) }
        ensures taken_name { IsErrOf result AddFault.TakenName ↔ (has_name self.old name.now ≡ true) }
        ensures taken_vid { IsErrOf result AddFault.TakenVid
            ↔ ((has_name self.old name.now ≡ false) × (has_vid self.old vid ≡ true)) }
        ensures too_many { IsErrOf result AddFault.TooMany
            ↔ ((has_name self.old name.now ≡ false) × (has_vid self.old vid ≡ false)
            × (64 ≤ length self.old.services)) }
    {
        if self.has_name(name) {
            return Err(AddFault::TakenName);
        }
        if self.has_vid(vid.number()) {
            return Err(AddFault::TakenVid);
        }
        let number = self.services.len();
        if number >= MOST {
            return Err(AddFault::TooMany);
        }
        let text = Text::from_string(String::from_str(alloc, name)?);
        self.services.insert(vid, text)?;
        Ok(number as u8 + 1)
    }

    /// Returns the VID of the service with this number, if there is one. Numbers begin at 1.
    fn vid_of(&self, number: u8) -> Option<Vid>
        ensures { result ≡ vid_of self.now number }
    {
        if number == 0 {
            return None;
        }
        let (vid, _) = self.services.get_index(index_of(number))?;
        Some(*vid)
    }

    /// Checks that each of the numbers is that of a service. `None` is accepted too.
    fn are_known(&self, services: Option<&[u8]>) -> bool
        ensures { result ≡ are_known self.now (option_copied services.entry) }
    {
        if let Some(numbers) = services {
            for number in numbers {
                if self.vid_of(*number).is_none() {
                    return false;
                }
            }
        }
        true
    }

    /// Returns the VIDs of the services with these numbers.
    ///
    /// # Errors
    ///
    /// `AllocError` if an allocation failed.
    fn vids_of(&self, alloc: Global, numbers: &[u8]) -> Result<Seq<Vid>, AllocError>
        requires { list_all (is_known self.now) numbers.now ≡ true }
        ensures { IfOk result (λ vids. vids ≡ vids_of self.now numbers.now) }
    {
        let mut vids = Vec::with_capacity(alloc, numbers.len())?;
        for number in numbers {
            if let Some(vid) = self.vid_of(*number) {
                vids.push(vid)?;
            }
        }
        Ok(Seq::from_vec(vids))
    }

    /// Returns the role of the port, or `None` if it has none.
    pub fn kind(&self, port: u8) -> Option<&PortKind>
        ensures { option_copied result ≡ kind_at self.now port }
    {
        kind_at(&self.ports, port)
    }

    /// Checks whether the port has a role.
    pub fn is_taken(&self, port: u8) -> bool
        ensures { result ≡ is_taken self.now port }
    {
        kind_at(&self.ports, port).is_some()
    }

    /// Makes a port a customer port of the service with this number. Frames that arrive there without a priority tag
    /// get the priority `pcp`, 0 to 7 (IEEE 802.1Q clause 6.9).
    ///
    /// # Errors
    ///
    /// `NoService` if no service has the number, otherwise `Taken` if the port has a role, otherwise `Memory` if an
    /// allocation failed. The table is unchanged then.
    pub fn join(&mut self, port: u8, service: u8, pcp: u8) -> Result<(), JoinFault>
        requires { pcp ≤ 7 }
        ensures ok { OnOk result ((join : Join) × (vid_of self.old service ≡ Some join.vid) × (join.pcp ≡ pcp)
            × (self.new ≡ attached self.old port (Customer join))) }
        ensures err { OnErr result (self.new ≡ self.old) }
        ensures no_service { IsErrOf result JoinFault.NoService ↔ (is_known self.old service ≡ false) }
        ensures taken { IsErrOf result JoinFault.Taken
            ↔ ((is_known self.old service ≡ true) × (is_taken self.old port ≡ true)) }
    {
        let Some(vid) = self.vid_of(service) else {
            return Err(JoinFault::NoService);
        };
        if self.is_taken(port) {
            return Err(JoinFault::Taken);
        }
        let join = customer(vid, pcp);
        let kind = PortKind::Customer(join);
        attach(&mut self.ports, Attachment { port, kind })?;
        Ok(())
    }

    /// Makes a port a trunk, a port to other bridges. It carries the services with these numbers. `None` is every
    /// service, also one that is added later.
    ///
    /// # Errors
    ///
    /// `NoService` if one of the numbers is not that of a service, otherwise `Taken` if the port has a role,
    /// otherwise `Memory` if an allocation failed. The table is unchanged then.
    pub fn trunk(
        &mut self,
        alloc: Global,
        port: u8,
        services: Option<&[u8]>,
    ) -> Result<(), JoinFault>
        ensures ok { OnOk result (self.new
            ≡ attached self.old port (Trunk (carried self.old (option_copied services.entry)))) }
        ensures err { OnErr result (self.new ≡ self.old) }
        ensures no_service { IsErrOf result JoinFault.NoService
            ↔ (are_known self.old (option_copied services.entry) ≡ false) }
        ensures taken { IsErrOf result JoinFault.Taken ↔ ((are_known self.old (option_copied services.entry) ≡ true)
            × (is_taken self.old port ≡ true)) }
    {
        if !self.are_known(services) {
            return Err(JoinFault::NoService);
        }
        if self.is_taken(port) {
            return Err(JoinFault::Taken);
        }
        let vids = match services {
            None => None,
            Some(numbers) => Some(self.vids_of(alloc, numbers)?),
        };
        let kind = PortKind::Trunk(vids);
        attach(&mut self.ports, Attachment { port, kind })?;
        Ok(())
    }

    /// Returns the ports that are members of the service with this VID, ascending.
    ///
    /// # Errors
    ///
    /// `Memory` if an allocation failed.
    pub fn ports_of(&self, alloc: Global, vid: u16) -> Result<Vec<u8>, Memory>
        ensures ports { IfOk result (λ ports. ports.items ≡ ports_of self.now vid) }
        ensures ascending { IfOk result (λ ports. Rises ports.items) }
    {
        let _ = &self.ports;
        let members = self.members_of(alloc, vid)?;
        Ok(members)
    }

    /// Returns the ports that are members of the service with this VID.
    ///
    /// # Errors
    ///
    /// `Memory` if an allocation failed.
    fn members_of(&self, alloc: Global, vid: u16) -> Result<Vec<u8>, Memory>
        ensures { IfOk result (λ ports. ports.items ≡ ports_of self.now vid) }
    {
        let mut members = Vec::new(alloc);
        for attachment in &self.ports {
            if self.is_member_as(vid, &attachment.kind) {
                members.push(attachment.port)?;
            }
        }
        Ok(members)
    }

    /// Checks whether the port is a member of the service with this VID. A port without a role is a member of none.
    pub fn is_member(&self, port: u8, vid: u16) -> bool
        ensures { result ≡ is_member self.now port vid }
    {
        match kind_at(&self.ports, port) {
            None => false,
            Some(kind) => self.is_member_as(vid, kind),
        }
    }

    /// Checks whether a port with this role is a member of the service with this VID.
    fn is_member_as(&self, vid: u16, kind: &PortKind) -> bool
        ensures { result ≡ is_member_as self.now vid kind.now }
    {
        match kind {
            PortKind::Customer(join) => join.vid.number() == vid,
            PortKind::Trunk(None) => self.has_vid(vid),
            PortKind::Trunk(Some(vids)) => contains_vid(vids.as_slice(), vid),
        }
    }

    /// Returns the priority of frames that arrive at a customer port without a priority tag, 0 to 7, or `None` for
    /// any other port.
    pub fn pcp_of(&self, port: u8) -> Option<u8>
        ensures { result ≡ pcp_of self.now port }
    {
        match kind_at(&self.ports, port)? {
            PortKind::Customer(join) => Some(join.pcp),
            PortKind::Trunk(_) => None,
        }
    }

    /// Returns the VID of a customer port's service, or `None` for any other port.
    pub fn vid_at(&self, port: u8) -> Option<Vid>
        ensures { result ≡ vid_at self.now port }
    {
        match kind_at(&self.ports, port)? {
            PortKind::Customer(join) => Some(join.vid),
            PortKind::Trunk(_) => None,
        }
    }

    /// Admits a frame at a customer port (IEEE 802.1ad clause 9). It returns the service, the priority, and whether a
    /// priority tag is to be removed. Allocates nothing.
    ///
    /// # Errors
    ///
    /// `Malformed` if the frame has fewer than 14 octets, otherwise `Long` if it has more than 1,992 (1,996 with a
    /// priority tag), otherwise `Reserved` if its destination is reserved, otherwise `STagged` if the type of a
    /// service tag follows the addresses of the frame without its priority tag.
    ///
    /// # Examples
    ///
    /// ```
    /// use pb_frame::Reason;
    /// use pb_svlan::{Entered, Services, Vid};
    ///
    /// let vid = Vid::new(100).ok_or("not a VID")?;
    /// let mut services = Services::new(rt.alloc());
    /// let red = services.add(rt.alloc(), "red", vid)?;
    /// services.join(2, red, 5)?;
    /// assert!(rt; services.vid_at(2).is_some());
    /// let frame = b"\xff\xff\xff\xff\xff\xff\x02\0\0\0\0\x01\x08\0AB";
    /// let (pcp, cut) = (5, false);
    /// assert_eq!(rt; services.enter(2, frame), Ok(Entered { vid, pcp, cut }));
    /// assert_eq!(rt; services.enter(2, b"AB"), Err(Reason::Malformed));
    /// ```
    pub fn enter(&self, port: u8, frame: &[u8]) -> Result<Entered, Reason>
        requires { IsSome (vid_at self.now port) }
        ensures entered { IfOk result (IsEntered self.now port frame.now) }
        ensures admitted { IsOk result ↔ (is_admitted frame.now ≡ true) }
        ensures refused { IfErr result (λ reason. refusal frame.now ≡ Some reason) }
    {
        if let Some(reason) = refusal(frame) {
            return Err(reason);
        }
        let vid = self.vid_at(port).unwrap();
        let cut = has_priority_tag(frame);
        let pcp = if cut {
            priority_of(frame)
        } else {
            self.pcp_of(port).unwrap_or(0)
        };
        Ok(Entered { vid, pcp, cut })
    }
}

/// Returns the membership of a customer port.
fn customer(vid: Vid, pcp: u8) -> Join
    requires { pcp ≤ 7 }
    ensures vid { result.vid ≡ vid }
    ensures pcp { result.pcp ≡ pcp }
{
    Join { vid, pcp }
}

/// Checks whether one of the VIDs is this number.
fn contains_vid(vids: &[Vid], vid: u16) -> bool
    ensures { result ≡ list_any (λ v. v == vid) vids.now }
{
    for other in vids {
        if other.number() == vid {
            return true;
        }
    }
    false
}

/// Checks whether one of the names is this text.
fn contains_name(names: &[Text], name: &str) -> bool
    ensures { result ≡ list_any (λ n. same n name.now) names.now }
{
    for other in names {
        if other.as_str() == name {
            return true;
        }
    }
    false
}
