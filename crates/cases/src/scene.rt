use maps::ListMap;
use motion::Trip;
use search::Workspace;
use std::alloc::AllocError;

// A floor with the trips of two carts, and where to tell what comes of cases on it.
#[derive(Drop)]
pub struct Scene<'a> {
    pub rt: &'a HostRuntime,
    pub work: Workspace,
    pub map: ListMap,
    pub trips: [Trip; 2],
}

impl<'a> Scene<'a> {
    pub fn new(
        rt: &'a HostRuntime,
        map: ListMap,
        trips: [Trip; 2],
    ) -> Result<Scene<'a>, AllocError> {
        let work = Workspace::new(rt.alloc())?;
        Ok(Scene {
            rt,
            work,
            map,
            trips,
        })
    }
}
